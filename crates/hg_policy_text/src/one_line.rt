//! A text of a document in one line.

ghost use Rattle.std.specs.Prelude.{◌≡◌, ◌<◌, Some};
ghost use Rattle.hg_policy_text.specs.OneLine.{one_line, written, is_written_out};
ghost use Rattle.hg_policy_text.specs.OneLine.{four_digits, hex_digit};

use std::fmt;

/// A text with its control characters written out, as TOML's basic strings write them, and so what
/// breaks a line or turns the direction of writing: so it is one line, drives no terminal, and
/// shows its characters in their order. A backslash and a quote stay as they are. Names that
/// somebody else chose, of keys or of files, are told so.
#[derive(Clone, Copy, Debug)]
pub struct OneLine<'a>(pub &'a str);

impl<'a> fmt::Display for OneLine<'a> {
    ghost output = { λ line. Some (one_line line.0.now) };

    fn fmt<W: fmt::Write>(&self, f: &mut fmt::Formatter<W>) -> fmt::Result {
        for c in self.0.chars() {
            write!(f, "{}", Written(c))?;
        }
        Ok(())
    }
}

/// A character of such a line.
#[derive(Clone, Copy, Debug)]
struct Written(char);

impl fmt::Display for Written {
    ghost output = { λ c. Some (written c.0) };

    fn fmt<W: fmt::Write>(&self, f: &mut fmt::Formatter<W>) -> fmt::Result {
        match self.0 {
            '\u{8}' => write!(f, "\\b"),
            '\t' => write!(f, "\\t"),
            '\n' => write!(f, "\\n"),
            '\u{c}' => write!(f, "\\f"),
            '\r' => write!(f, "\\r"),
            c if is_written_out(c) => {
                let n = c as u32;
                let [a, b, c, d] = four_digits(n);
                write!(f, "\\u{a}{b}{c}{d}")
            }
            c => write!(f, "{c}"),
        }
    }
}

/// Whether a character is written out: a control character, the separators of lines and of
/// paragraphs, and the marks, embeddings, overrides and isolates of direction (Unicode's
/// `Bidi_Control`).
fn is_written_out(c: char) -> bool
    ensures { result ≡ is_written_out c }
{
    match c {
        '\u{61c}' | '\u{200e}' | '\u{200f}' => true,
        '\u{2028}'..='\u{202e}' | '\u{2066}'..='\u{2069}' => true,
        c => c.is_control(),
    }
}

/// The digits of a number below 65,536.
fn four_digits(n: u32) -> [char; 4]
    requires { n < 65_536 }
    ensures { result ≡ four_digits n }
{
    [
        hex_digit(n / 4096),
        hex_digit(n / 256 % 16),
        hex_digit(n / 16 % 16),
        hex_digit(n % 16),
    ]
}

/// The digit of a number below 16, a capital from ten on.
fn hex_digit(n: u32) -> char
    requires { n < 16 }
    ensures { result ≡ hex_digit n }
{
    char::from(b"0123456789ABCDEF"[n as usize])
}
