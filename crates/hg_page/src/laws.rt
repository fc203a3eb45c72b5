//! Laws of the blocks of pages. Each function does nothing: what it promises is the law.

ghost use Rattle.hg_page.specs.Blocks.{UsedBlocksEndInTheirPage, BlocksShareNoWord};
ghost use Rattle.hg_page.specs.Blocks.{PagesShareNoWord};

/// A used block ends in its page.
pub fn used_blocks_end_in_their_page()
    ensures { UsedBlocksEndInTheirPage }
{}

/// Two blocks of a page share no word.
pub fn blocks_share_no_word()
    ensures { BlocksShareNoWord }
{}

/// Used blocks of two pages of a segment share no word.
pub fn pages_share_no_word()
    ensures { PagesShareNoWord }
{}
