//! What holds of JSON strings that are shown.
ghost use Rattle.terminal_text.specs.Laws.{LineSaysWhatIsShown, LinesSayWhatIsShown, TextSaysWhatIsShown};

/// A JSON string on one line is read as what is shown of its string there.
pub fn a_line_says_what_is_shown()
    ensures { LineSaysWhatIsShown }
{}

/// One of several lines is read as what is shown of it on lines of its own.
pub fn a_text_says_what_is_shown()
    ensures { TextSaysWhatIsShown }
{}

/// So is an array of its lines.
pub fn lines_say_what_is_shown()
    ensures { LinesSayWhatIsShown }
{}
