// What holds of every execution of a whole file.

ghost use Rattle.std.specs.Prelude.{◌≡◌, ℕ, List, Option, None, Ok, codes};
ghost use Rattle.gn_paths.specs.Directory.{directory_of};
ghost use Rattle.gn_paths.specs.Resolve.{path_meant};
ghost use Rattle.gn_executions.specs.Units.{build_file_of, import_begins, load_begins};
ghost use Rattle.gn_executions.specs.Laws.{ImportsAreTrees, LoadsAreTrees, AbsentImportsAreWrong, SetupsAreTrees, VariablesHaveTheirNames, DefaultOutputIsTheBuildDirectory, DotfilesAreTheirNames, FilesEndAlone};
ghost use Rattle.gn_items.specs.declared.key.When.{When as Timing};
ghost use Rattle.gn_values.specs.Tables.{at_name};
ghost use Rattle.gn_definitions.specs.Imported.{ImportState};
ghost use Rattle.gn_environment.specs.declared.context.Context.{Context};
ghost use Rattle.gn_environment.specs.Chains.{nearest};
ghost use Rattle.gn_environment.specs.Environment.{fixed_value, value_of};
ghost use Rattle.gn_executions.specs.declared.host.HostNames.{HostNames};
ghost use Rattle.gn_executions.specs.Base.{BaseState, built_in_beneath, beneath_in, setup_base, finished_base};
ghost use Rattle.gn_executions.specs.BuiltIn.{built_in_scope};

/// Each execution is a tree of questions: what it does next depends on the answers that it got, and on nothing else of what
/// is known. Importing a path at which there is no file is wrong at once.
pub fn executions_are_trees()
    ensures imports { ImportsAreTrees }
    ensures loads { LoadsAreTrees }
    ensures setups { SetupsAreTrees }
    ensures absent { AbsentImportsAreWrong }
{}

/// The build file of a directory is what the text `BUILD.gn` means there.
pub fn build_files_are_meant()
    ensures { (directory : List ℕ) → path_meant directory (codes "BUILD.gn") ≡ Ok (build_file_of directory) }
{}

/// A file sees what stands beneath its base from its beginning on: a read there finds it, and nothing else.
pub fn files_see_their_bases()
    ensures imports { (base : BaseState) (when : Timing) (toolchain path name : List ℕ)
        → value_of name (import_begins base when toolchain path) ≡ fixed_value name (beneath_in base (directory_of path)) }
    ensures loads { (base : BaseState) (directory toolchain path name : List ℕ)
        → value_of name (load_begins base directory toolchain path) ≡ fixed_value name (beneath_in base (directory_of path)) }
{}

/// The build configuration and the files that it imports find the built-in variables behind their scopes, and nothing else. The
/// later files under its toolchain find there what it has left, and then the built-in variables.
pub fn later_files_see_the_build_configuration()
    ensures early { (context : Context) (host : HostNames) (configuration : List ℕ) (secondary : Option (List ℕ)) (directory name : List ℕ)
        → fixed_value name (beneath_in (setup_base context host configuration secondary) directory) ≡ nearest (at_name name (built_in_scope host context directory).variables) None }
    ensures later { (base : BaseState) (context : Context) (left : ImportState) (directory name : List ℕ)
        → fixed_value name (beneath_in (finished_base base context left) directory) ≡ nearest (at_name name left.scope.variables) (fixed_value name (built_in_beneath base.host context directory)) }
{}

/// The built-in variables of every file have the thirteen names, each once, whatever the host, the toolchain and the directory
/// are; and the output directory of the default toolchain is the build directory.
pub fn built_in_variables_have_their_names()
    ensures names { VariablesHaveTheirNames }
    ensures output { DefaultOutputIsTheBuildDirectory }
{}

/// What a dotfile says is what each of its names says by itself; the names that this program leaves out have no value then.
pub fn dotfiles_are_their_names()
    ensures { DotfilesAreTheirNames }
{}

/// The run of a dotfile, and of build arguments, ends with what it leaves or with its first fault: no answer is wanting for it.
pub fn files_that_stand_alone_end()
    ensures { FilesEndAlone }
{}
