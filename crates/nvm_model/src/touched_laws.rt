// Laws of lines that several spans touch, each a function without a body.
ghost use Rattle.std.specs.Prelude.{◌≡◌, ◌+◌, ℕ, List, [], ◌∷◌, Some, None, option_map};
ghost use Rattle.nvm_base.specs.declared.units.Span.{Span as Bytes};
ghost use Rattle.nvm_model.specs.Page.{Page, cell_of, persist};
ghost use Rattle.nvm_model.specs.Touched.{bad_touched, bad_touched_from, next_bad_touched, persist_spans, persist_touched};

/// To make several spans durable is to make one after another so, whether they overlap or not: each line is changed once.
pub fn spans_are_made_durable_one_by_one()
    ensures none { (pages : List Page) → persist_spans [] pages ≡ pages }
    ensures more { (span : Bytes) (spans : List Bytes) (pages : List Page)
        → persist_spans (span ∷ spans) pages ≡ persist_spans spans (persist span.start span.len pages) }
    ensures lines { (spans : List Bytes) (pages : List Page) (n : ℕ)
        → cell_of (persist_spans spans pages) n ≡ option_map (persist_touched spans n) (cell_of pages n) }
{}

/// The bad lines that spans touch are those that are found one after another.
pub fn bad_lines_are_found_one_by_one()
    ensures all { (spans : List Bytes) (pages : List Page) → bad_touched_from spans pages 0 ≡ bad_touched spans pages }
    ensures none { (spans : List Bytes) (pages : List Page) (from : ℕ)
        → next_bad_touched spans pages from ≡ None → bad_touched_from spans pages from ≡ [] }
    ensures next { (spans : List Bytes) (pages : List Page) (from n : ℕ)
        → next_bad_touched spans pages from ≡ Some n → bad_touched_from spans pages from ≡ n ∷ bad_touched_from spans pages (n + 1) }
{}
