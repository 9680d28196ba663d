//! The document of a row, put together from its lines.

use crate::texts::Text;

/// Adds a text, in which `^` and a character stand for another byte.
fn add_text(document: &mut Text, text: &str) {
    let mut turned = false;
    for byte in text.as_bytes() {
        if turned {
            document.byte(*byte ^ 64);
            turned = false;
        } else if *byte == b'^' {
            turned = true;
        } else {
            document.byte(*byte);
        }
    }
}

fn repeat(document: &mut Text, count: u32, text: &str, numbered: bool) {
    for number in 0..count {
        add_text(document, text);
        if numbered {
            document.count(b"", u64::from(number));
        }
    }
}

/// Adds a text that has its count before it. Tells whether there is a count.
fn add_often(document: &mut Text, counted: &str, numbered: bool) -> bool {
    let Some((count, text)) = counted.split_once(' ') else {
        return false;
    };
    match count.parse::<u32>() {
        Ok(count) => {
            repeat(document, count, text, numbered);
            true
        }
        Err(_) => false,
    }
}

/// Adds what a mark has behind it. Tells whether it is a mark.
fn add_marked(document: &mut Text, mark: &str, text: &str) -> bool {
    match mark {
        "|" => {
            add_text(document, text);
            document.end();
            true
        }
        "+" => {
            add_text(document, text);
            true
        }
        "*" => add_often(document, text, false),
        "@" => add_often(document, text, true),
        _ => false,
    }
}

/// Adds the piece of a line. Tells whether the line is one.
pub(crate) fn add_piece(document: &mut Text, line: &str) -> bool {
    match line.split_once(' ') {
        Some((mark, text)) => add_marked(document, mark, text),
        None => add_marked(document, line, ""),
    }
}
