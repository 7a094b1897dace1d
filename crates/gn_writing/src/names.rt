// Names in Ninja files: those of rules and pools.

ghost use Rattle.std.specs.Prelude.{◌≡◌, ◌++◌, ◌∷◌, [], ◌<◌, OnOk, IfOk, option_map};
ghost use Rattle.gn_rows.specs.Names.{tool_name};
ghost use Rattle.gn_writing.specs.Names.{hex_digit, mangled_byte, mangled, rule_prefix, action_rule_name, pool_name};

use gn_labels::Label;
use gn_paths::Text;
use gn_rows::ToolName;
use std::alloc::{AllocError, Global};

// The lower-case hexadecimal digit of a value.
fn hex_digit(value: u8) -> u8
    requires { value < 16 }
    ensures { result ≡ hex_digit value }
{
    if value < 10 {
        b'0' + value
    } else {
        b'a' + (value - 10)
    }
}

// Puts a byte at the end as it stands in a mangled name.
fn append_mangled_byte(text: &mut Vec<u8>, byte: u8) -> Result<(), AllocError>
    ensures { OnOk result (text.new.items ≡ text.old.items ++ mangled_byte byte) }
{
    if !byte.is_ascii_alphanumeric() {
        text.push(b'_')?;
        text.push(hex_digit(byte / 16))?;
        text.push(hex_digit(byte % 16))?;
        return Ok(());
    }
    text.push(byte)?;
    Ok(())
}

// Puts bytes at the end as they stand in a mangled name.
fn append_mangled(text: &mut Vec<u8>, bytes: &[u8]) -> Result<(), AllocError>
    ensures { OnOk result (text.new.items ≡ text.old.items ++ mangled bytes.now) }
{
    for byte in bytes {
        append_mangled_byte(text, *byte)?;
    }
    Ok(())
}

/// A text as a name of Ninja's: letters and digits stay, and every other byte is `_` and its two lower-case hexadecimal
/// digits. Different texts have different names.
pub fn mangled(alloc: Global, text: &[u8]) -> Result<Text, AllocError>
    ensures { IfOk result (λ t. t ≡ mangled text.now) }
{
    let mut name = Vec::with_capacity(alloc, text.len())?;
    append_mangled(&mut name, text)?;
    Ok(Text::from_vec(name))
}

/// What stands before the names of tools in the rules of a toolchain: its mangled name and `_`, and nothing for the default
/// one, whose name isn't given.
pub fn rule_prefix(alloc: Global, toolchain: Option<&Text>) -> Result<Text, AllocError>
    ensures { IfOk result (λ t. t ≡ rule_prefix (option_map (λ n. n.now) toolchain.entry)) }
{
    match toolchain {
        Some(name) => prefix_of(alloc, name),
        None => Ok(Text::new(alloc)),
    }
}

// The prefix of a toolchain of this name.
fn prefix_of(alloc: Global, name: &Text) -> Result<Text, AllocError>
    ensures { IfOk result (λ t. t ≡ mangled name.now ++ 95 ∷ []) }
{
    let mut prefix = mangled(alloc, name.as_bytes())?;
    prefix.push(b'_')?;
    Ok(prefix)
}

/// The rule of a tool: its name behind the prefix of its toolchain.
pub fn tool_rule(alloc: Global, prefix: &Text, tool: ToolName) -> Result<Text, AllocError>
    ensures { IfOk result (λ t. t ≡ prefix.now ++ tool_name tool) }
{
    let mut rule = prefix.copy(alloc)?;
    rule.append(tool.name())?;
    Ok(rule)
}

/// The rule of an action: its mangled label, with the toolchain.
pub fn action_rule_name(alloc: Global, label: &Label) -> Result<Text, AllocError>
    ensures { IfOk result (λ t. t ≡ action_rule_name label.now) }
{
    let text = label.print(alloc, &Text::new(alloc))?;
    mangled(alloc, text.as_bytes())
}

/// The name of a pool: its mangled label as printed. That of `//:console` is `console`, a pool that Ninja itself has.
pub fn pool_name(alloc: Global, pool: &Label, default: &Text) -> Result<Text, AllocError>
    ensures { IfOk result (λ t. t ≡ pool_name default.now pool.now) }
{
    let text = pool.print(alloc, default)?;
    if text.as_bytes() == b"//:console".as_slice() {
        return Text::from_bytes(alloc, b"console");
    }
    mangled(alloc, text.as_bytes())
}
