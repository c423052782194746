// What the words of the command line ask for.
use anyhow::{Context, anyhow, bail};
use std::env;
use std::str::FromStr;

// The part of the cloth that is asked for: its first pick and end, and how many of each where that is said.
#[derive(Clone, Copy)]
pub struct Window {
    pub pick: u32,
    pub end: u32,
    pub picks: Option<u32>,
    pub ends: Option<u32>,
}

// The window where no option says another.
const NOTHING_SAID: Window = Window {
    pick: 0,
    end: 0,
    picks: None,
    ends: None,
};

// The help, or the cloth of the draft on standard input or in a file.
#[derive(Drop)]
pub enum Task {
    Help,
    Input(Window),
    File(String, Window),
}

// An option that takes a number.
#[derive(Clone, Copy)]
enum Setting {
    Pick,
    End,
    Picks,
    Ends,
}

// A word that is no option with a number is an error.
impl FromStr for Setting {
    type Err = anyhow::Error;

    fn from_str(word: &str) -> anyhow::Result<Setting> {
        match word {
            "--pick" => Ok(Setting::Pick),
            "--end" => Ok(Setting::End),
            "--picks" => Ok(Setting::Picks),
            "--ends" => Ok(Setting::Ends),
            _ => Err(anyhow!("no such option: {word}")),
        }
    }
}

impl Window {
    // The window with another number. How many picks or ends there are can't be 0.
    fn with(self, setting: Setting, n: u32) -> Option<Window> {
        match setting {
            Setting::Pick => Some(Window { pick: n, ..self }),
            Setting::End => Some(Window { end: n, ..self }),
            Setting::Picks | Setting::Ends if n == 0 => None,
            Setting::Picks => Some(Window {
                picks: Some(n),
                ..self
            }),
            Setting::Ends => Some(Window {
                ends: Some(n),
                ..self
            }),
        }
    }

    // The window after the number of an option.
    fn with_word(self, setting: Setting, word: &str) -> Option<Window> {
        self.with(setting, word.parse().ok()?)
    }
}

// The task that the command line tells.
pub fn read_args(rt: &HostRuntime) -> anyhow::Result<Task> {
    let mut window = NOTHING_SAID;
    let mut path: Option<String> = None;
    let mut open: Option<Setting> = None;
    for word in env::args(rt)?.skip(1) {
        if let Some(setting) = open {
            window = window
                .with_word(setting, word.as_str())
                .context(format_args!("not a number that the option takes: {word}"))?;
            open = None;
        } else if word.as_str() == "--help" || word.as_str() == "-h" {
            return Ok(Task::Help);
        } else if word.as_str().starts_with("-") {
            open = Some(word.as_str().parse()?);
        } else if path.is_some() {
            bail!("one file at most, and this is another: {word}");
        } else {
            path = Some(word);
        }
    }
    if open.is_some() {
        bail!("the last option lacks its number");
    }
    Ok(match path {
        None => Task::Input(window),
        Some(path) => Task::File(path, window),
    })
}
