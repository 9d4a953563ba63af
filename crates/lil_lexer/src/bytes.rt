ghost use Rattle.std.specs.Prelude.{◌≡◌, ◌≤◌, ◌==◌, length};
ghost use Rattle.std.specs.List.{list_all, prefix_len};
ghost use Rattle.lil_base.specs.Names as names;
ghost use Rattle.lil_text.specs.Cuts as cuts;
ghost use Rattle.lil_text.specs.Lexical as lexical;
ghost use Rattle.lil_lexer.specs.Pieces as spec;

pub(crate) fn is_blank(b: u8) -> bool
    ensures { result ≡ cuts.is_blank b }
{
    b == 9 || (b == 10 || (b == 12 || (b == 13 || b == 32)))
}

pub(crate) fn is_letter(b: u8) -> bool
    ensures { result ≡ names.is_letter b }
{
    (65 <= b && b <= 90) || (97 <= b && b <= 122)
}

pub(crate) fn is_digit(b: u8) -> bool
    ensures { result ≡ names.is_digit b }
{
    48 <= b && b <= 57
}

fn is_octal_digit(b: u8) -> bool
    ensures { result ≡ lexical.is_octal_digit b }
{
    48 <= b && b <= 55
}

fn is_hex_digit(b: u8) -> bool
    ensures { result ≡ lexical.is_hex_digit b }
{
    is_digit(b) || (65 <= b && b <= 70)
}

pub(crate) fn digit_value(b: u8) -> u8
    ensures value { result ≡ lexical.digit_value b }
{
    if is_digit(b) {
        b.saturating_sub(48)
    } else {
        b.saturating_sub(55)
    }
}

fn is_name_byte(b: u8) -> bool
    ensures { result ≡ names.is_name_byte b }
{
    is_letter(b) || is_digit(b)
}

pub(crate) fn is_quote(b: u8) -> bool
    ensures { result ≡ lexical.is_quote b }
{
    b == 34 || b == 39
}

fn goes_on(mark: u8, b: u8) -> bool
    ensures { result ≡ lexical.goes_on mark b }
{
    !(b == mark || b == 10)
}

fn is_string_byte(mark: u8, b: u8) -> bool
    ensures { result ≡ lexical.is_string_byte mark b }
{
    32 <= b && !(b == mark || b == 127)
}

/// The two bytes begin a comment.
pub(crate) fn opens(b: u8, c: u8) -> bool
    ensures { result ≡ lexical.opens b c }
{
    b == b'(' && c == b'*'
}

/// The two bytes end a comment.
pub(crate) fn closes(b: u8, c: u8) -> bool
    ensures { result ≡ lexical.closes b c }
{
    b == b'*' && c == b')'
}

pub(crate) fn begins_with(b: u8, text: &[u8]) -> bool
    ensures { result ≡ spec.begins_with b text.now }
{
    match text {
        [] => false,
        [first, ..] => *first == b,
    }
}

pub(crate) fn name_len(text: &[u8]) -> usize
    ensures len { result ≡ prefix_len names.is_name_byte text.now }
    ensures within { result ≤ length text.now }
{
    text.iter().take_while(|b| is_name_byte(**b)).count()
}

pub(crate) fn hex_len(text: &[u8]) -> usize
    ensures len { result ≡ prefix_len lexical.is_hex_digit text.now }
    ensures within { result ≤ length text.now }
{
    text.iter().take_while(|b| is_hex_digit(**b)).count()
}

pub(crate) fn all_hex(text: &[u8]) -> bool
    ensures { result ≡ list_all lexical.is_hex_digit text.now }
{
    text.iter().all(|b| is_hex_digit(*b))
}

pub(crate) fn all_octal(text: &[u8]) -> bool
    ensures { result ≡ list_all lexical.is_octal_digit text.now }
{
    text.iter().all(|b| is_octal_digit(*b))
}

pub(crate) fn all_digits(text: &[u8]) -> bool
    ensures { result ≡ list_all names.is_digit text.now }
{
    text.iter().all(|b| is_digit(*b))
}

/// How many bytes stand before the mark or the line's end.
pub(crate) fn line_len(mark: u8, text: &[u8]) -> usize
    ensures len { result ≡ prefix_len (lexical.goes_on mark) text.now }
    ensures within { result ≤ length text.now }
{
    text.iter().take_while(|b| goes_on(mark, **b)).count()
}

/// How many of the first bytes may stand in a string with this mark.
pub(crate) fn string_len(mark: u8, text: &[u8]) -> usize
    ensures len { result ≡ prefix_len (lexical.is_string_byte mark) text.now }
    ensures within { result ≤ length text.now }
{
    text.iter()
        .take_while(|b| is_string_byte(mark, **b))
        .count()
}
