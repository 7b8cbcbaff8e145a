//! What is allowed in the place of a value that a configuration is refused for.

/// The kind and the range of what these codes are about, by their last word: a key, or the rule that a value breaks.
pub fn allowed_for(codes: &str) -> Option<&'static str> {
    let Some((before, last)) = codes.rsplit_once(' ') else {
        return allowed_by(codes);
    };
    if before.starts_with("C11 ") {
        return allowed_in_group(last);
    }
    allowed_by(last)
}

/// The same of a key of a group: groups share the ranges.
fn allowed_in_group(word: &str) -> Option<&'static str> {
    match word {
        "listeners" => Some("a list of texts, at most 64 in all groups together"),
        "workers" => Some("a whole number, from 0 to 1024 in all groups together"),
        _ => allowed_by(word),
    }
}

fn allowed_by(word: &str) -> Option<&'static str> {
    match word {
        "command" => Some("a list of 1 to 16 texts"),
        "groups" => Some("a list of 1 to 16 tables"),
        "listeners" => Some("a list of 1 to 64 texts"),
        "pid" => Some("a text in quotes"),
        "retries" => Some("a whole number from 0 to 8"),
        "surge" | "workers" => Some("a whole number from 0 to 1024"),
        "timeout" => Some("a whole number from 1 to 86400"),
        "C8" => Some("a path that begins with '/', of at most 100 bytes"),
        "C9" => Some("1 to 16 texts of 1 to 255 bytes"),
        "A2" => Some("four numbers, as 127.0.0.1, or IPv6 in brackets, as [::1]"),
        "A3" | "S3" => Some("a whole number from 1 to 65535"),
        "A4" => Some("at most 107 bytes"),
        "A5" => Some("printable ASCII without spaces"),
        "S2" => {
            Some("backlog and defer_accept of a port; backlog, group, mode and owner of a path")
        }
        "S4" => Some("true or false"),
        "S5" | "S7" => Some("a text of 1 to 255 bytes"),
        "S6" => Some("a text of three octal digits, as \"660\""),
        _ => None,
    }
}
