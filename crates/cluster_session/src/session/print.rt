//! The lines that a session prints.
mod entries;
mod kinds;
mod value;
mod words;

ghost use Rattle.std.specs.Prelude.{◌≡◌, ◌++◌, OnOk, decimal, length, map, string_bytes, codes};
ghost use Rattle.cluster_session.specs.Output.{fault_line};
ghost use Rattle.cluster_client.specs.Shown.{answer_result};
ghost use Rattle.std.specs.List.{flat_map};
ghost use Rattle.cluster_routing.specs.Address.{written};
ghost use Rattle.cluster_routing.specs.Seen.{address};
ghost use Rattle.resp_core.specs.View.{view};
ghost use Rattle.cluster_calls.specs.Links.World.{tree_result};
ghost use Rattle.cluster_session.specs.Printed.{call_line, hex_word, outcome_line, refused_line};
ghost use Rattle.cluster_session.specs.PrintedLines.{manner_word, request_line, sent_line};

use cluster_client::{Answer, Asked, NodeAddress};
use entries::{print_entries, print_rows};
use resp_core::{RedisError, Value};
use std::alloc::AllocError;
use value::print_value;
use words::{print_bytes, print_count, push_number};

/// The line of a text with a bad line: that line's number.
pub(super) fn fault(output: &mut String, number: u64) -> Result<(), AllocError>
    ensures { OnOk result (string_bytes output.new ≡ string_bytes output.old ++ fault_line number) }
{
    output.push_str("fault line ")?;
    push_number(output, number)?;
    output.push_str("\n")
}

/// The line of a call; where it tells of each position of a pipeline, one more for each of these.
pub(super) fn answered(
    output: &mut String,
    answer: &Result<Answer, RedisError>,
) -> Result<(), AllocError>
    ensures { OnOk result
        (string_bytes output.new ≡ string_bytes output.old ++ call_line (answer_result answer.now)) }
{
    match answer {
        Ok(Answer::Value(value)) => {
            output.push_str("ok ")?;
            print_value(output, value)?;
            output.push_str("\n")
        }
        Ok(Answer::Range(reply)) => {
            output.push_str("ok ")?;
            print_entries(output, &reply.ids)?;
            output.push_str("\n")
        }
        Ok(Answer::Read(reply)) => {
            output.push_str("ok ")?;
            print_rows(output, &reply.keys)?;
            output.push_str("\n")
        }
        Ok(Answer::Each(outcomes)) => {
            print_count(output, "ok each ", outcomes.len())?;
            output.push_str("\n")?;
            print_outcomes(output, outcomes)
        }
        // A refresh has nothing more to print, and no line of a session makes the others.
        Ok(_) => output.push_str("ok\n"),
        Err(error) => refused(output, error),
    }
}

fn refused(output: &mut String, error: &RedisError) -> Result<(), AllocError>
    ensures { OnOk result (string_bytes output.new ≡ string_bytes output.old ++ refused_line error.now) }
{
    output.push_str("err ")?;
    kinds::push_kind(output, error.kind())?;
    output.push_str("\n")
}

/// A line for each position.
fn print_outcomes(
    output: &mut String,
    outcomes: &[Result<Value, RedisError>],
) -> Result<(), AllocError>
    ensures { OnOk result
        (string_bytes output.new ≡ string_bytes output.old
        ++ flat_map outcome_line (map (tree_result view) outcomes.now)) }
{
    for outcome in outcomes {
        print_outcome(output, outcome)?;
    }
    Ok(())
}

fn print_outcome(output: &mut String, outcome: &Result<Value, RedisError>) -> Result<(), AllocError>
    ensures { OnOk result
        (string_bytes output.new ≡ string_bytes output.old ++ outcome_line (tree_result view outcome.now)) }
{
    match outcome {
        Ok(value) => {
            output.push_str("each ok ")?;
            print_value(output, value)?;
            output.push_str("\n")
        }
        Err(error) => {
            output.push_str("each ")?;
            refused(output, error)
        }
    }
}

/// A line for each request.
pub(super) fn requests(output: &mut String, asked: &[Asked]) -> Result<(), AllocError>
    ensures { OnOk result
        (string_bytes output.new ≡ string_bytes output.old ++ flat_map request_line asked.now) }
{
    for request in asked {
        print_request(output, request)?;
    }
    Ok(())
}

fn print_request(output: &mut String, request: &Asked) -> Result<(), AllocError>
    ensures { OnOk result (string_bytes output.new ≡ string_bytes output.old ++ request_line request.now) }
{
    output.push_str("asked ")?;
    push_address(output, &request.node)?;
    output.push_str(" ")?;
    output.push_str(manner(request.asking))?;
    print_args(output, &request.args)?;
    output.push_str("\n")
}

fn manner(asking: bool) -> &'static str
    ensures { result.now ≡ manner_word asking }
{
    if asking { "asking" } else { "plain" }
}

/// Each argument, a space before it.
fn print_args(output: &mut String, args: &[Vec<u8>]) -> Result<(), AllocError>
    ensures { OnOk result
        (string_bytes output.new ≡ string_bytes output.old
        ++ flat_map (λ arg. codes " " ++ hex_word arg) (map (λ arg. arg.items) args.now)) }
{
    for arg in args {
        print_bytes(output, " ", arg)?;
    }
    Ok(())
}

/// The line of the bytes that went out to a node.
pub(super) fn sent(output: &mut String, node: &NodeAddress, bytes: &[u8]) -> Result<(), AllocError>
    ensures { OnOk result
        (string_bytes output.new ≡ string_bytes output.old ++ sent_line (address node.now) bytes.now) }
{
    output.push_str("sent ")?;
    push_address(output, node)?;
    print_bytes(output, " ", bytes)?;
    output.push_str("\n")
}

fn push_address(output: &mut String, node: &NodeAddress) -> Result<(), AllocError>
    ensures { OnOk result (string_bytes output.new ≡ string_bytes output.old ++ written (address node.now)) }
{
    write!(output, "{node}")
}
