// Laws of the order in which files are put. The calls do nothing: each is a law.

ghost use Rattle.std.specs.Prelude.{◌≡◌, List, ℕ};
ghost use Rattle.std.specs.List.{filter};
ghost use Rattle.gn_outside.specs.States.{PutFile};
ghost use Rattle.gn_out_files.specs.Files.{in_path_order};
ghost use Rattle.gn_out_files.specs.Laws.{is_at, AreInOrder};

/// Files stand in the order of their paths: no path is greater than a later one.
pub fn files_stand_in_the_order_of_their_paths()
    ensures { (files : List PutFile) → AreInOrder (in_path_order files) }
{}

/// The files of each path are the same, in the same order. So no file is lost, and none is there twice.
pub fn files_of_one_path_keep_their_order()
    ensures { (path : List ℕ) (files : List PutFile) → filter (is_at path) (in_path_order files) ≡ filter (is_at path) files }
{}
