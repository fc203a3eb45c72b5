//! The pieces of a picture, between its numbers and names: of a map, and of an SVG file.

ghost use Rattle.std.specs.Prelude.{◌≡◌, ◌++◌, OnOk, decimal};
ghost use Rattle.hg_state.specs.Pieces.{text_of};

use hg_text::{push, push_count};
use std::alloc::AllocError;

/// A piece of a picture.
#[derive(Clone, Copy)]
pub(crate) enum Piece {
    MapPages,
    MapPlaces,
    Segment,
    PageOf,
    PageDot,
    Gap,
    Left,
    LineEnd,
    SquareAt,
    SquareStyle,
    SquareOwner,
    SquareEnd,
    PaleEnd,
    LabelAt,
    Label,
    RowAt,
    LeftRowEnd,
    RowEnd,
    PageAt,
    PageDown,
    PageWide,
    PageScale,
    PageWidth,
    PageFront,
    PageBack,
    Head,
    Style,
    Meaning,
    Colour,
    Hue,
    Lightness,
    ColourAt,
    ColourOwner,
    NameAt,
    NameEnd,
}

/// Its text.
#[tactic(auto, unfolding(crate::specs::Pieces::text_of))]
pub(crate) fn text_of(piece: Piece) -> &'static str
    ensures { result.now ≡ text_of piece }
{
    match piece {
        Piece::MapPages => {
            "pages: . no class, - all free, + in part, # none free, = goes with the page before\n"
        }
        Piece::MapPlaces =>
            "places, behind the bytes of a block: . free, # live, o parted, * worn\n",
        Piece::Segment => "segment ",
        Piece::PageOf => "page ",
        Piece::PageDot => ".",
        Piece::Gap => " ",
        Piece::Left => " held by nobody\n",
        Piece::LineEnd => "\n",
        Piece::SquareAt => "<rect x=\"",
        Piece::SquareStyle => "\" width=\"1\" height=\"1\" class=\"",
        Piece::SquareOwner => "\" width=\"1\" height=\"1\" class=\"t",
        Piece::SquareEnd => "\"/>\n",
        Piece::PaleEnd => " p\"/>\n",
        Piece::LabelAt => "<text x=\"8\" y=\"",
        Piece::Label => "\">",
        Piece::RowAt => "</text>\n<rect x=\"60\" y=\"",
        Piece::LeftRowEnd => "\" width=\"956\" height=\"22\" class=\"l\"/>\n",
        Piece::RowEnd => "\" width=\"956\" height=\"22\" class=\"u\"/>\n",
        Piece::PageAt => "<svg x=\"",
        Piece::PageDown => "\" y=\"",
        Piece::PageWide => "\" width=\"",
        Piece::PageScale => "\" height=\"22\" preserveAspectRatio=\"none\" viewBox=\"0 0 ",
        Piece::PageWidth => " 1\">\n<rect width=\"",
        Piece::PageFront => "\" height=\"1\" class=\"f\"/>\n",
        Piece::PageBack => "</svg>\n",
        Piece::Head => "<svg xmlns=\"http://www.w3.org/2000/svg\" width=\"1030\" height=\"",
        Piece::Style => {
            "\" font-family=\"monospace\" font-size=\"12\">\n\
             <style>.f{fill:#e6e6e6}.u{fill:none;stroke:#bbb}\
             .l{fill:none;stroke:#bbb;stroke-width:3;stroke-dasharray:4}.w{fill:#000}.p{opacity:.4}</style>\n\
             <rect width=\"100%\" height=\"100%\" fill=\"#fff\"/>\n<text x=\"60\" y=\""
        }
        Piece::Meaning => {
            "\">a colour a tenant; pale: parted; black: worn; grey: free; \
             white: no class; dashed: held by nobody</text>\n"
        }
        Piece::Colour => "<style>.t",
        Piece::Hue => "{fill:hsl(",
        Piece::Lightness => ",65%,",
        Piece::ColourAt => "%)}</style>\n<rect x=\"60\" y=\"",
        Piece::ColourOwner => "\" width=\"14\" height=\"14\" class=\"t",
        Piece::NameAt => "\"/>\n<text x=\"80\" y=\"",
        Piece::NameEnd => "</text>\n",
    }
}

/// Appends a piece.
pub(crate) fn push_piece(out: &mut Vec<u8>, piece: Piece) -> Result<(), AllocError>
    ensures { OnOk result (out.new.items ≡ out.old.items ++ text_of piece) }
{
    push(out, text_of(piece))
}

/// Appends a piece, and a number behind it.
pub(crate) fn push_numbered(out: &mut Vec<u8>, piece: Piece, n: u64) -> Result<(), AllocError>
    ensures { OnOk result (out.new.items ≡ out.old.items ++ text_of piece ++ decimal n) }
{
    push_count(out, text_of(piece), n)
}
