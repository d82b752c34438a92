use super::{Line, Lines};

/// Returns whether an input has exactly these lines, numbered from 1.
fn has_lines(input: &str, wanted: &[&str]) -> bool {
    let mut lines = Lines::new(input.as_bytes());
    for (index, text) in wanted.iter().enumerate() {
        let number = index.saturating_add(1);
        let bytes = text.as_bytes();
        if lines.next() != Some(Line { number, bytes }) {
            return false;
        }
    }
    lines.next().is_none()
}

#[test]
fn lines_end_with_line_feeds(rt: HostRuntime) {
    for (input, lines) in [
        ("", [].as_slice()),
        ("\n", [""].as_slice()),
        ("a", ["a"].as_slice()),
        ("a\n", ["a"].as_slice()),
        ("a\n\n\nb", ["a", "", "", "b"].as_slice()),
        ("a\r\nb\n", ["a", "b"].as_slice()),
        ("a\r", ["a\r"].as_slice()),
        ("a\nb\r", ["a", "b\r"].as_slice()),
        ("a\r\r\nb\rc\n", ["a\r", "b\rc"].as_slice()),
        ("\r\n\r", ["", "\r"].as_slice()),
        (" a \n# b\n", [" a ", "# b"].as_slice()),
    ] {
        assert!(rt; has_lines(input, lines), "at {input:?}");
    }
}
