// Whether rows of tables, and what stands alone, are as they are expected: each in one test, since a test with its loop costs its proof
// alone.

use crate::syntax::{expressions, files, nesting, places, trees};
use crate::{
    executions, faults, keys, labels, ninja_text, outcome, outside, paths, substs, text, tokens,
    tree, values,
};
use std::alloc::{AllocError, Global};
use std::test::Fail;

// What the rows of a table are.
#[derive(Clone, Copy)]
enum Rows {
    Bytes(ByteRows),
    Syntax(SyntaxRows),
    State(StateRows),
    Name(NameRows),
}

// Texts and the tokens of files.
#[derive(Clone, Copy)]
enum ByteRows {
    Quoted,
    Decimal,
    NinjaPath,
    NinjaValue,
    ShellWord,
    Tokens,
    BadDollar,
    Integer,
}

// Files and expressions that are parsed.
#[derive(Clone, Copy)]
enum SyntaxRows {
    Expression,
    RefusedExpression,
    ExpressionNest,
    FirstPosition,
    File,
    Nest,
    Place,
    PlaceOfError,
    Grouping,
    Pieces,
}

// Faults, what is kept, keys, and calls on paths.
#[derive(Clone, Copy)]
enum StateRows {
    Code,
    FaultLine,
    FaultOrder,
    TreeFile,
    FileLength,
    ReadPath,
    PutFile,
    KnownLabel,
    RefusedSubst,
    Path,
    Key,
}

// Calls on labels, patterns and substitutions, and names of executions.
#[derive(Clone, Copy)]
enum NameRows {
    Label,
    Pattern,
    ExpandedSubst,
    SubstOfSource,
    ToolText,
    Execution,
}

const TABLES: [(Rows, &str); 35] = [
    (Rows::Bytes(ByteRows::Quoted), text::QUOTED),
    (Rows::Bytes(ByteRows::Decimal), text::DECIMALS),
    (Rows::Bytes(ByteRows::NinjaPath), ninja_text::PATHS),
    (Rows::Bytes(ByteRows::NinjaValue), ninja_text::VALUES),
    (Rows::Bytes(ByteRows::ShellWord), ninja_text::WORDS),
    (Rows::Bytes(ByteRows::Tokens), tokens::FILES),
    (Rows::Bytes(ByteRows::BadDollar), tokens::BAD_DOLLARS),
    (Rows::Bytes(ByteRows::Integer), tokens::INTEGERS),
    (
        Rows::Syntax(SyntaxRows::Expression),
        expressions::EXPRESSIONS,
    ),
    (
        Rows::Syntax(SyntaxRows::RefusedExpression),
        expressions::REFUSED,
    ),
    (Rows::Syntax(SyntaxRows::ExpressionNest), expressions::NESTS),
    (Rows::Syntax(SyntaxRows::FirstPosition), tree::EXPRESSIONS),
    (Rows::Syntax(SyntaxRows::File), files::FILES),
    (Rows::Syntax(SyntaxRows::Nest), nesting::NESTS),
    (Rows::Syntax(SyntaxRows::Place), places::PLACES),
    (Rows::Syntax(SyntaxRows::PlaceOfError), places::ERRORS),
    (Rows::Syntax(SyntaxRows::Grouping), trees::GROUPED),
    (Rows::Syntax(SyntaxRows::Pieces), trees::STRINGS),
    (Rows::State(StateRows::Code), faults::TEXTS),
    (Rows::State(StateRows::FaultLine), faults::LINES),
    (Rows::State(StateRows::FaultOrder), faults::IN_ORDER),
    (Rows::State(StateRows::TreeFile), outside::FILES),
    (Rows::State(StateRows::FileLength), outside::LENGTHS),
    (Rows::State(StateRows::ReadPath), outside::READ_PATHS),
    (Rows::State(StateRows::PutFile), outside::PUT),
    (Rows::State(StateRows::KnownLabel), outcome::KNOWN),
    (Rows::State(StateRows::RefusedSubst), substs::REFUSED),
    (Rows::State(StateRows::Path), paths::CALLS),
    (Rows::State(StateRows::Key), executions::KINDS),
    (Rows::Name(NameRows::Label), labels::LABELS),
    (Rows::Name(NameRows::Pattern), labels::PATTERNS),
    (Rows::Name(NameRows::ExpandedSubst), substs::EXPANDED),
    (Rows::Name(NameRows::SubstOfSource), substs::OF_SOURCES),
    (Rows::Name(NameRows::ToolText), substs::TOOL_TEXTS),
    (Rows::Name(NameRows::Execution), executions::NAMED),
];

fn is_byte_row_so(alloc: Global, rows: ByteRows, row: &str) -> Result<bool, AllocError> {
    match rows {
        ByteRows::Quoted => text::is_quoted(alloc, row),
        ByteRows::Decimal => text::is_written(alloc, row),
        ByteRows::NinjaPath => ninja_text::is_escaped_path(alloc, row),
        ByteRows::NinjaValue => ninja_text::is_escaped_value(alloc, row),
        ByteRows::ShellWord => ninja_text::is_shell_word(alloc, row),
        ByteRows::Tokens => tokens::is_cut(alloc, row),
        ByteRows::BadDollar => Ok(tokens::is_bad_dollar(row)),
        ByteRows::Integer => Ok(tokens::has_value(row)),
    }
}

fn is_syntax_row_so(alloc: Global, rows: SyntaxRows, row: &str) -> Result<bool, AllocError> {
    match rows {
        SyntaxRows::Expression => expressions::is_read(alloc, row),
        SyntaxRows::RefusedExpression => expressions::is_refused(alloc, row),
        SyntaxRows::ExpressionNest => expressions::is_limited(alloc, row),
        SyntaxRows::FirstPosition => Ok(tree::begins_in_column_4(alloc, row)),
        SyntaxRows::File => files::is_read(alloc, row),
        SyntaxRows::Nest => nesting::is_limited(alloc, row),
        SyntaxRows::Place => places::is_place(alloc, row),
        SyntaxRows::PlaceOfError => places::is_place_of_error(alloc, row),
        SyntaxRows::Grouping => trees::is_grouped(alloc, row),
        SyntaxRows::Pieces => trees::is_cut(alloc, row),
    }
}

fn is_state_row_so(
    alloc: Global,
    rows: StateRows,
    number: usize,
    row: &str,
) -> Result<bool, AllocError> {
    match rows {
        StateRows::Code => faults::is_text(alloc, number, row),
        StateRows::FaultLine => faults::has_line(alloc, row),
        StateRows::FaultOrder => faults::is_in_order(alloc, number, row),
        StateRows::TreeFile => outside::is_there(alloc, row),
        StateRows::FileLength => outside::is_long(alloc, row),
        StateRows::ReadPath => outside::has_read(alloc, row),
        StateRows::PutFile => outside::has_taken(alloc, row),
        StateRows::KnownLabel => outcome::is_known(alloc, row),
        StateRows::RefusedSubst => substs::is_refused(alloc, row),
        StateRows::Path => paths::is_answered(alloc, row),
        StateRows::Key => executions::is_told(alloc, row),
    }
}

fn is_name_row_so(alloc: Global, rows: NameRows, row: &str) -> Result<bool, Fail> {
    match rows {
        NameRows::Label => labels::is_label_answered(alloc, row),
        NameRows::Pattern => labels::is_pattern_answered(alloc, row),
        NameRows::ExpandedSubst => substs::is_expanded(alloc, row),
        NameRows::SubstOfSource => substs::is_of_source(alloc, row),
        NameRows::ToolText => substs::has_variables(alloc, row),
        NameRows::Execution => executions::is_named(alloc, row),
    }
}

// Whether the row of this number is as it is expected.
fn is_so(alloc: Global, rows: Rows, number: usize, row: &str) -> Result<bool, Fail> {
    let is_so = match rows {
        Rows::Bytes(rows) => is_byte_row_so(alloc, rows, row),
        Rows::Syntax(rows) => is_syntax_row_so(alloc, rows, row),
        Rows::State(rows) => is_state_row_so(alloc, rows, number, row),
        Rows::Name(rows) => return is_name_row_so(alloc, rows, row),
    };
    Ok(is_so?)
}

// The first row of a table that isn't as it is expected; the empty text where each is.
fn wrong_row<'a>(alloc: Global, rows: Rows, table: &'a str) -> Result<&'a str, Fail> {
    for (number, row) in table.split_terminator('\x1e').enumerate() {
        if !is_so(alloc, rows, number, row)? {
            return Ok(row);
        }
    }
    Ok("")
}

#[test]
fn rows_are_so(rt: HostRuntime) -> Result<(), Fail> {
    for entry in TABLES.iter() {
        let wrong = wrong_row(rt.alloc(), entry.0, entry.1)?;
        assert!(rt; wrong.is_empty(), "at {wrong}");
    }
    Ok(())
}

// What stands alone.
#[derive(Clone, Copy)]
enum Alone {
    NamesHaveNumbers,
    TextsAreSortedByTheirBytes,
    TextsAreCopied,
    PathsAreKeys,
    PlacesAreCopied,
    TheLastOverrideCounts,
    AnAdditionIsTakenOut,
    BlocksAreShared,
    TheDeepestTreeIsDropped,
    LeftOperandsStandDeep,
    APlaceIsPrinted,
    DetailsAreOrdered,
    StagesAndCodesAreOrdered,
    ATreeHasManyFiles,
    AnOutcomeBeginsEmpty,
    ItemsAndLinesComeInOrder,
    QuestionsComeInOrder,
}

const ALL_ALONE: [Alone; 17] = [
    Alone::NamesHaveNumbers,
    Alone::TextsAreSortedByTheirBytes,
    Alone::TextsAreCopied,
    Alone::PathsAreKeys,
    Alone::PlacesAreCopied,
    Alone::TheLastOverrideCounts,
    Alone::AnAdditionIsTakenOut,
    Alone::BlocksAreShared,
    Alone::TheDeepestTreeIsDropped,
    Alone::LeftOperandsStandDeep,
    Alone::APlaceIsPrinted,
    Alone::DetailsAreOrdered,
    Alone::StagesAndCodesAreOrdered,
    Alone::ATreeHasManyFiles,
    Alone::AnOutcomeBeginsEmpty,
    Alone::ItemsAndLinesComeInOrder,
    Alone::QuestionsComeInOrder,
];

fn holds(alloc: Global, alone: Alone) -> Result<bool, Fail> {
    let holds = match alone {
        Alone::NamesHaveNumbers => text::have_numbers(alloc),
        Alone::TextsAreSortedByTheirBytes => keys::are_sorted(alloc),
        Alone::TextsAreCopied => keys::are_copied(alloc),
        Alone::PathsAreKeys => return keys::is_key(alloc),
        Alone::PlacesAreCopied => keys::is_place_of_root(alloc),
        Alone::TheLastOverrideCounts => values::last_counts(alloc),
        Alone::AnAdditionIsTakenOut => values::an_addition_is_taken_out(alloc),
        Alone::BlocksAreShared => tree::is_shared(alloc),
        Alone::TheDeepestTreeIsDropped => tree::is_deepest_dropped(alloc),
        Alone::LeftOperandsStandDeep => nesting::stand_deep(alloc),
        Alone::APlaceIsPrinted => faults::is_placed_and_copied(alloc),
        Alone::DetailsAreOrdered => faults::are_counted(alloc),
        Alone::StagesAndCodesAreOrdered => Ok(faults::are_ordered()),
        Alone::ATreeHasManyFiles => outside::has_many(alloc),
        Alone::AnOutcomeBeginsEmpty => Ok(outcome::begins_empty(alloc)),
        Alone::ItemsAndLinesComeInOrder => outcome::are_left_in_order(alloc),
        Alone::QuestionsComeInOrder => return outcome::are_asked_in_order(alloc),
    };
    Ok(holds?)
}

#[test]
fn each_alone_is_so(rt: HostRuntime) -> Result<(), Fail> {
    for (number, alone) in ALL_ALONE.iter().enumerate() {
        assert!(rt; holds(rt.alloc(), *alone)?, "at {number}");
    }
    Ok(())
}
