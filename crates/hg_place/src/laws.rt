//! Laws of slot words and of handles. Each function does nothing: what it promises is the law.

ghost use Rattle.hg_place.specs.LifeOrderLaws.{SlotWordsArePacked, LivesAreOrdered, LivesGoForward};
ghost use Rattle.hg_place.specs.HandleLaws.{WordsAreOfOneHandle, HandlesAreInTheOrderOfWords};

/// A word is a slot's exactly where it is made of a generation of 32 bits, an owner and a life.
pub fn slot_words_are_packed()
    ensures { SlotWordsArePacked }
{}

/// The order of the lives of a place is reflexive and transitive, and antisymmetric on slot words.
pub fn lives_are_ordered()
    ensures { LivesAreOrdered }
{}

/// From never given out to live, from live to freed, and from freed to the next life goes forward.
pub fn lives_go_forward()
    ensures { LivesGoForward }
{}

/// No two handles have one word.
pub fn words_are_of_one_handle()
    ensures { WordsAreOfOneHandle }
{}

/// Handles are in the order of their words: by segment, page, index and generation.
pub fn handles_are_in_the_order_of_words()
    ensures { HandlesAreInTheOrderOfWords }
{}
