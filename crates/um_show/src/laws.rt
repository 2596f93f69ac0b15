//! Laws of layouts. A call does nothing: what it ensures is the law.
ghost use Rattle.um_show.specs.Laws.{LayoutIsReadBack};

/// The layout of each program that some text spells is a text that spells the same program, places aside.
pub fn layout_is_read_back()
    ensures { LayoutIsReadBack }
{}
