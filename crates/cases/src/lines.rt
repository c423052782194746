// The lines of an input.
use programs::next_line;

// Of each input its first lines; an empty one has none, and the last needs no end.
const INPUTS: [(&[u8], &[&[u8]]); 5] = [
    (b"", &[]),
    (b"back", &[b"back"]),
    (b"back\n", &[b"back"]),
    (
        b"\ncell 0 1\r\n\nhangs",
        &[b"", b"cell 0 1\r", b"", b"hangs"],
    ),
    (b"\n", &[b""]),
];

#[test]
fn lines_are_read(rt: HostRuntime) {
    for (input, lines) in INPUTS {
        let mut left = input;
        let mut read: Vec<u8> = Vec::new(rt.alloc());
        for line in lines {
            assert!(rt; matches!(next_line(&mut left, &mut read), Ok(true)));
            assert!(rt; read.as_slice() == *line);
        }
        assert!(rt; matches!(next_line(&mut left, &mut read), Ok(false)));
    }
}
