//! What holds of the files of saved profiles: each function's contract is a law, and its body does nothing.
ghost use Rattle.k_dict_saved.specs.Laws.{FileIsOfOne, MigratedOfItsText, MigrationExpands, MigrationIsOne, OldFileIsOfOne, OldOfItsText, ReadOfWrite};
ghost use Rattle.k_dict_saved.specs.LineLaws.{FirstWrongIsOne, NoFileIsWrong, TextIsOfOne};

/// What `read` may answer to the file that `write` makes of a profile is that profile, and no two profiles have one file.
pub fn read_of_write()
    ensures same { ReadOfWrite }
    ensures one { FileIsOfOne }
{}

/// What `read_old` may answer to the file of a profile of format 1 is that profile, and what `read` may answer is what that
/// becomes. No two such profiles have one file.
pub fn read_of_old()
    ensures same { OldOfItsText }
    ensures migrated { MigratedOfItsText }
    ensures one { OldFileIsOfOne }
{}

/// A profile of format 1 becomes one profile, whose last entry expands to the old tree up to the order of siblings.
pub fn migration()
    ensures one { MigrationIsOne }
    ensures expands { MigrationExpands }
{}

/// The bytes of a file have at most one first wrong line, and a file that keeps the rules of a format that is read has none.
pub fn first_wrong_line()
    ensures one { FirstWrongIsOne }
    ensures none { NoFileIsWrong }
{}

/// No two files have one text, in one format or in two.
pub fn text_of_one()
    ensures { TextIsOfOne }
{}
