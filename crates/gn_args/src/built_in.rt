// The names of the built-in variables.

ghost use Rattle.std.specs.Prelude.{◌≡◌};
ghost use Rattle.std.specs.List.{list_any};
ghost use Rattle.std.specs.Str.{bytes_eq};
ghost use Rattle.gn_environment.specs.Chains.{is_one_of};
ghost use Rattle.gn_args.specs.BuiltIn.{built_in_names};

const BUILT_IN: [&[u8]; 13] = [
    b"host_os",
    b"host_cpu",
    b"current_os",
    b"current_cpu",
    b"target_os",
    b"target_cpu",
    b"current_toolchain",
    b"default_toolchain",
    b"root_build_dir",
    b"root_out_dir",
    b"root_gen_dir",
    b"target_out_dir",
    b"target_gen_dir",
];

/// Whether a name is that of a built-in variable. It takes no memory.
#[tactic(auto, unfolding(crate::specs::BuiltIn::built_in_names))]
pub fn is_built_in(name: &[u8]) -> bool
    ensures { result ≡ is_one_of name.now built_in_names }
{
    is_one_of(name, &BUILT_IN)
}

// Whether the name is one of these.
fn is_one_of(name: &[u8], names: &[&[u8]]) -> bool
    ensures { result ≡ list_any (λ other. bytes_eq name.now other.now) names.now }
{
    names.iter().any(|other| name == *other)
}
