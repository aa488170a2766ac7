// What a look finds of each word and block for itself. None of these functions does anything.
ghost use Rattle.std.specs.Prelude.{◌≡◌, ◌||◌, Bool, List, Option};
ghost use Rattle.std.specs.List.{list_all};
ghost use Rattle.nvm_model.specs.Storage.{Block, File, Mapping};
ghost use Rattle.script_text.specs.Action.{Action};
ghost use Rattle.explorer.specs.Durable.Durable.{AllHaveLines};
ghost use Rattle.explorer.specs.Outcomes.Blocks.{BlockRead, all_numbers_read, block_fits};
ghost use Rattle.explorer.specs.Outcomes.Files.{FileRead};
ghost use Rattle.explorer.specs.Outcomes.Left.{blocks_may_pass, files_may_pass};
ghost use Rattle.explorer.specs.Outcomes.Outcome.{AllHaveValues};
ghost use Rattle.outcome_lists.specs.Apart.{EachAlone, GroupsAlone, grouped};
ghost use Rattle.outcome_lists.specs.ApartBlocks.{AreDistinctBlocks, AreOfOneBlock, blocks_shown_apart, is_same_block};
ghost use Rattle.outcome_lists.specs.ApartFiles.{AreDistinctWords, words_shown_apart};
ghost use Rattle.outcome_lists.specs.Together.{EachAtRest, GroupsInside, StandsByGroups};

/// Words of the volume are shown independently: at rest all of them where each alone is, and inside a command where each line, each
/// page, or all of them are as they were before it, or as it makes them.
pub fn words_are_shown_each_for_itself()
    ensures rest { EachAlone }
    ensures groups { GroupsAlone }
{}

/// Blocks are shown independently: inside a command each, or all of them, as they were or as it makes them.
pub fn blocks_are_shown_each_for_itself()
    ensures apart { (reads : List BlockRead) → AreOfOneBlock reads → (o : Option Action) (blocks : List Block)
        → blocks_may_pass o (block_fits reads) blocks (all_numbers_read reads) ≡ blocks_shown_apart o blocks reads }
    ensures distinct { (reads : List BlockRead) → AreDistinctBlocks reads → (old new : BlockRead → Bool)
        → grouped is_same_block old new reads ≡ list_all (λ (r : BlockRead). old r || new r) reads }
{}

/// Words of files are shown independently: inside a command each line, or all of them with the names and sizes of files.
pub fn file_words_are_shown_each_for_itself()
    ensures { (reads : List FileRead) (files : List File) → AreDistinctWords reads → AllHaveLines files → AllHaveValues files
        → (mappings : List Mapping) (o : Option Action) → files_may_pass mappings o reads files ≡ words_shown_apart mappings o reads files }
{}

/// One choice of each of several parts is shown together at rest where each is shown alone, and inside a command where each group of
/// them is, as it was or as the command makes it.
pub fn looks_are_shown_group_by_group()
    ensures rest { EachAtRest }
    ensures inside { GroupsInside }
{}

/// The sides that are kept part by part, in order, stand where each group of parts is shown all by the old state or all by the new one.
pub fn sides_stand_by_groups()
    ensures { StandsByGroups }
{}
