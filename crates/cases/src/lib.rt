// Tests of calls and answers as bytes and as text, of rows in words, and of a desk from call to answer.
#![tactic(auto)]

#[cfg(test)]
mod calls;
#[cfg(test)]
mod desk_calls;
#[cfg(test)]
mod lines;
#[cfg(test)]
mod rows_in_words;
#[cfg(test)]
mod texts;
