//! What a row says has to come of its run, against what came.

/// The words that a line begins with which says what has to come.
const RESULTS: &[&str] = &["> ", "= ", "begun ", "end ", "resume ", "log "];

fn is_result(line: &str) -> bool {
    RESULTS.iter().any(|words| line.starts_with(*words))
}

// Whether this line came as it is wanted. A word that means nothing is wanted as `?`.
fn is_as_wanted(line: &str, wanted: &str) -> bool {
    match wanted.strip_suffix("?") {
        Some(head) => line.starts_with(head),
        None => line == wanted,
    }
}

/// Returns whether the lines that came are those that a row wants.
pub fn agrees(row: &str, came: &str) -> bool {
    let mut lines = came.lines();
    for wanted in row.lines() {
        if is_result(wanted) {
            match lines.next() {
                Some(line) if is_as_wanted(line, wanted) => {}
                _ => return false,
            }
        }
    }
    lines.next().is_none()
}
