//! What a line of the rows says.

/// Lines of a document.
#[derive(Clone, Copy, Drop)]
pub(crate) struct Lines<'a> {
    pub(crate) count: u32,
    pub(crate) text: &'a str,
    /// Whether the text has the numbers of the lines.
    pub(crate) numbered: bool,
    /// Whether each has an end.
    pub(crate) ended: bool,
}

/// What a row says of a case.
#[derive(Clone, Copy, Drop)]
pub(crate) enum Setting<'a> {
    Words(&'a str),
    FetchFails(u64),
    PutFails(u64),
    Room(u64),
}

/// A row.
#[derive(Clone, Copy, Drop)]
pub(crate) enum Row<'a> {
    Note,
    Document(&'a str),
    Text(Lines<'a>),
    Case(&'a str),
    Of(Setting<'a>),
    Strange,
}

/// A line of a document, or its last piece.
fn one_line(text: &str, ended: bool) -> Row<'_> {
    Row::Text(Lines {
        count: 1,
        text,
        numbered: false,
        ended,
    })
}

/// So many lines of a document.
fn many_lines(rest: &str) -> Row<'_> {
    let Some((count, text)) = rest.split_once(' ') else {
        return Row::Strange;
    };
    match count.parse::<u32>() {
        Ok(count) => Row::Text(Lines {
            count,
            text,
            numbered: text.contains('<'),
            ended: true,
        }),
        Err(_) => Row::Strange,
    }
}

/// A row of a case that has a number.
fn numbered<'a>(word: &str, rest: &str) -> Row<'a> {
    let Ok(number) = rest.parse::<u64>() else {
        return Row::Strange;
    };
    match word {
        "fetch-fails" => Row::Of(Setting::FetchFails(number)),
        "put-fails" => Row::Of(Setting::PutFails(number)),
        "room" => Row::Of(Setting::Room(number)),
        _ => Row::Strange,
    }
}

/// What a line says.
pub(crate) fn row_of(line: &str) -> Row<'_> {
    let (word, rest) = match line.split_once(' ') {
        Some(parts) => parts,
        None => (line, ""),
    };
    match word {
        "" if rest.is_empty() => Row::Note,
        "#" => Row::Note,
        "document" => Row::Document(rest),
        "|" => one_line(rest, true),
        "+" => one_line(rest, false),
        "*" => many_lines(rest),
        "case" => Row::Case(rest),
        "words" => Row::Of(Setting::Words(rest)),
        _ => numbered(word, rest),
    }
}
