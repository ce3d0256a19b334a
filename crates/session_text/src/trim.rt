// Lines without what stands around their fields.
ghost use Rattle.std.specs.Prelude.{◌≡◌, ◌≤◌, length};
ghost use Rattle.pst_model.specs.Fields.{is_blank};
ghost use Rattle.pst_model.specs.Forms.{without_return};
ghost use Rattle.session_text.specs.Fronts.{trimmed};
ghost use Rattle.session_text.specs.Trims.{TrimsEnd};

/// Whether an octet stands between fields: a space or a tab.
pub fn is_blank(octet: u8) -> bool
    ensures { result ≡ is_blank octet }
{
    octet == b' ' || octet == b'\t'
}

/// The line without the one CR that may be its last octet.
pub fn without_return(line: &[u8]) -> &[u8]
    ensures line { result.now ≡ without_return line.now }
    ensures shorter { length result.now ≤ length line.now }
{
    let count = line.len();
    if count > 0 && line[count - 1] == b'\r' {
        &line[..count - 1]
    } else {
        line
    }
}

/// The line without the blanks in front.
pub fn trim_front(line: &[u8]) -> &[u8]
    ensures line { result.now ≡ trimmed line.now }
    ensures shorter { length result.now ≤ length line.now }
{
    let mut from = 0;
    'blanks: while from < line.len() && is_blank(line[from]) {
        from += 1;
    }
    &line[from..]
}

/// The line without the blanks behind.
pub fn trim_end(line: &[u8]) -> &[u8]
    ensures line { TrimsEnd line.now result.now }
    ensures shorter { length result.now ≤ length line.now }
{
    let mut to = line.len();
    'blanks: while to > 0 && is_blank(line[to - 1]) {
        to -= 1;
    }
    &line[..to]
}
