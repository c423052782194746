// Twice 0 to 3, and then 0 to 2 from its end: stored, and read where it is stored.
use rows::LentRow;
use std::test::Fail;
use stored::store_row;

const BYTES: [u8; 25] = [
    1, 2, 2, 0, 0, 0, 4, 0, 0, 0, 0, 3, 0, 0, 0, 3, 4, 0, 0, 0, 0, 2, 0, 0, 0,
];

#[test]
fn is_stored_in_the_middle(rt: HostRuntime) -> Result<(), Fail> {
    let row = BYTES;
    let mut words = [7; 14];
    assert_eq!(rt; store_row(&row, &mut words[2..]), 11);
    assert_eq!(rt; words[1], 7);
    assert_eq!(rt; words[2], 1 + 8 * 2 + 11 * 4_294_967_296);
    assert_eq!(rt; words[12], 7);
    Ok(())
}

#[test]
fn is_read(rt: HostRuntime) -> Result<(), Fail> {
    let row = BYTES;
    let mut words = [7; 14];
    assert_eq!(rt; store_row(&row, &mut words), 11);
    let row = LentRow { words: &words };
    assert_eq!(rt; row.length(), 11);
    assert_eq!(rt; row.number_at(8), 2);
    let mut out = [0; 15];
    // 4,294,967,295 is 3 past a multiple of 11
    row.numbers_from(4_294_967_295, &mut out);
    assert_eq!(rt; out, [3, 0, 1, 2, 3, 2, 1, 0, 0, 1, 2, 3, 0, 1, 2]);
    Ok(())
}
