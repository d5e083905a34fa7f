//! Parts of the page that are always the same.

ghost use Rattle.std.specs.Prelude.{◌≡◌, ◌++◌, OnOk};
ghost use Rattle.status_pages.specs.Pieces.{piece_html};

use std::alloc::AllocError;

/// A part of the page that is always the same.
#[derive(Clone, Copy, Debug, PartialEq, Eq)]
pub(crate) enum Piece {
    BarFront,
    NumbersFront,
    AreaFront,
    AreaMiddle,
    AreasFront,
    OctetsFront,
    /// A warning reaches nobody, and what there is to do.
    Unreached,
    /// A warning is stuck, and what there is to do.
    Stuck,
    /// A warning is silent in some cells, of which the number stands between the two.
    SilentFront,
    SilentEnd,
    /// A warning is over since a time that stands between the two.
    OverFront,
    OverEnd,
    /// A link is down since a time and for so many seconds, which stand between these.
    EndedFront,
    EndedMiddle,
    EndedEnd,
    /// Where a warning begins that can be folded to a line: what stands in it up to the middle is left then.
    OpenFront,
    FoldedFront,
    FoldMiddle,
    FoldEnd,
    TextFront,
    MomentFront,
    MomentEnd,
    CausesFront,
    /// The name of an area in a line of the causes stands between the two.
    InFront,
    InEnd,
    SumsFront,
    SumsEnd,
    ColumnsFront,
    ColumnsEnd,
    WarningsFront,
    BscsFront,
    SectionEnd,
    ArticleEnd,
    BlockEnd,
    ParagraphEnd,
    ItemEnd,
    ListEnd,
}

impl Piece {
    #[tactic(auto, unfolding(crate::specs::Pieces::piece_html))]
    fn text(self) -> &'static str
        ensures { result.now ≡ piece_html self }
    {
        match self {
            Piece::BarFront => "<div class=\"bar\" aria-hidden=\"true\">",
            Piece::NumbersFront => "<p class=\"nums\">",
            Piece::AreaFront => "<li><h4><bdi>",
            Piece::AreaMiddle => "</bdi></h4>",
            Piece::AreasFront => "<ul class=\"areas\">",
            Piece::OctetsFront =>
                "<p class=\"octets\">The text cannot be read. Octets of its pages: ",
            Piece::Unreached => {
                "<p class=\"none\">REACHES NO CELL. Its areas cover no registered cell, so nobody gets it. Look at the areas: area put and widen bring it on air.</p>"
            }
            Piece::Stuck => {
                "<p class=\"none\">Cells are awaited or left, but no BSC is at work for it. If a BSC refused an order, type retry B. Else a cell or a link is down, or a BSC does not answer.</p>"
            }
            Piece::SilentFront => {
                "<p class=\"none\">Its number of broadcasts does not rise in cells where it is on air: <b>"
            }
            Piece::SilentEnd => "</b>. Type warning and its number at a console to see which.</p>",
            Piece::OverFront => "<p class=\"octets\">By its period it is over since ",
            Piece::OverEnd => " UTC.</p>",
            Piece::EndedFront => " since ",
            Piece::EndedMiddle => " UTC, for <b>",
            Piece::EndedEnd => "</b> s</p>",
            Piece::OpenFront => "<details open><summary>",
            Piece::FoldedFront => "<details><summary>",
            Piece::FoldMiddle => "</summary>",
            Piece::FoldEnd => "</details>",
            Piece::TextFront => "<p class=\"text\" dir=\"auto\">",
            Piece::MomentFront => "<p class=\"when\">Picture of ",
            Piece::MomentEnd => " UTC<span id=\"age\"></span></p>",
            Piece::CausesFront => "<ul class=\"why\">",
            Piece::InFront => "in <bdi>",
            Piece::InEnd => "</bdi> ",
            Piece::SumsFront => "<ul class=\"sums\">",
            Piece::SumsEnd => "</ul></header>",
            Piece::ColumnsFront => "<div class=\"cols\">",
            Piece::ColumnsEnd => "</div></main>",
            Piece::WarningsFront => "<div class=\"col warnings\">",
            Piece::BscsFront => "<div class=\"col bscs\">",
            Piece::SectionEnd => "</div></section>",
            Piece::ArticleEnd => "</article>",
            Piece::BlockEnd => "</div>",
            Piece::ParagraphEnd => "</p>",
            Piece::ItemEnd => "</li>",
            Piece::ListEnd => "</ul>",
        }
    }
}

/// Appends the part.
pub(crate) fn push_piece(out: &mut Vec<u8>, piece: Piece) -> Result<(), AllocError>
    ensures { OnOk result (out.new.items ≡ out.old.items ++ piece_html piece) }
{
    out.extend_from_slice(piece.text().as_bytes())
}
