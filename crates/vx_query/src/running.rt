//! Runs the commands of a document, one after another.

ghost use Rattle.std.specs.Prelude.{◌≡◌, ◌++◌, map, string_bytes};
ghost use Rattle.vx_document.specs.CommandView.{command_view};
ghost use Rattle.vx_model.specs.Column.{column_of};
ghost use Rattle.vx_query.specs.Queries.{commanded, query_lines, stepped};
ghost use Rattle.vx_query.specs.Steps.{step_view};
ghost use Rattle.vx_rules.specs.Outcomes.{Follows};

use crate::lines::push_line;
use crate::reading::read_step;
use crate::rooted::Rooted;
use crate::steps::Step;
use vx_array::ArrayRef;
use vx_base::{ExecutionCtx, VortexError, VortexResult};
use vx_document::{Command, Unread};

// Runs a step: the tree that it leaves. A query appends its line and leaves the tree as it was.
fn run_step(
    array: ArrayRef,
    step: &Step,
    text: &mut String,
    ctx: &mut ExecutionCtx,
) -> VortexResult<ArrayRef>
    ensures answer { Follows (stepped (column_of array) (step_view step.now)) (λ out left. (column_of out ≡ left.0) × (string_bytes text.new ≡ string_bytes text.old ++ left.1)) result }
    ensures ctx { ctx.new ≡ ctx.old }
{
    let tree = Rooted::of(array);
    match step {
        Step::Operation(op) => tree.apply(op, ctx),
        Step::Question(query) => {
            let answer = tree.ask(query, ctx)?;
            push_line(ctx.alloc(), text, &answer)?;
            Ok(tree.into_array())
        }
    }
}

// Runs a command. A value in it that isn't one of the column's type is MismatchedTypes.
fn run_command(
    array: ArrayRef,
    command: Command,
    text: &mut String,
    ctx: &mut ExecutionCtx,
) -> VortexResult<ArrayRef>
    ensures answer { Follows (commanded (column_of array) (command_view command)) (λ out left. (column_of out ≡ left.0) × (string_bytes text.new ≡ string_bytes text.old ++ left.1)) result }
    ensures ctx { ctx.new ≡ ctx.old }
{
    match read_step(ctx.alloc(), array.dtype(), command) {
        Ok(step) => run_step(array, &step, text, ctx),
        Err(Unread::NoMemory) => Err(VortexError::NoMemory),
        Err(Unread::BadDocument) => Err(VortexError::MismatchedTypes),
    }
}

/// The lines that commands print of a tree: an operation replaces it for what follows, a query prints its answer as compact JSON.
/// Refuses as the first command that is refused does, and NoMemory where memory runs out.
pub fn query_lines(
    array: ArrayRef,
    commands: Vec<Command>,
    ctx: &mut ExecutionCtx,
) -> VortexResult<String>
    ensures answer { Follows (query_lines (column_of array) (map command_view commands.items)) (λ text lines. string_bytes text ≡ lines) result }
    ensures ctx { ctx.new ≡ ctx.old }
{
    let mut text = String::new(ctx.alloc());
    let mut tree = array;
    for command in commands {
        tree = run_command(tree, command, &mut text, ctx)?;
    }
    Ok(text)
}
