//! The path call.

ghost use Rattle.std.specs.Prelude.{◌≡◌, ◌≤◌, length, take};
ghost use Rattle.std.specs.Result.{result_unwrap_or};
ghost use Rattle.nodes.specs.Rows.{nodes_in, end_in};
ghost use Rattle.merge.specs.View.{opening_of};
ghost use Rattle.paths.specs.Limits.{max_steps};
ghost use Rattle.paths.specs.Query.{steps_in};
ghost use Rattle.paths.specs.Path.{lists, scope, scope_of, path_of, step_opening, step_means, blank_from, Laid, Answered};
ghost use Rattle.paths.specs.Path.{walk as walk_means};
ghost use Rattle.paths.specs.Law.{KeepsLaw};

use crate::fault::{PathFault, StepFault};
use crate::query::{Query, Step};
use crate::step::step;
use merge::opening::Opening;
use nodes::list::ListSource;
use nodes::model::Model;
use nodes::row::Row;
use nodes::source::NodeSource;

/// The run of step k over the nodes that fitted before.
fn opening<M: Model, C: NodeSource>(
    model: &M,
    asked: Step,
    k: u16,
    containers: C,
) -> Opening<C, M::Source>
    requires { k ≤ max_steps }
    ensures { opening_of C.NodeSource M.Source.NodeSource result ≡ step_opening (scope M.Model model.now 0) k asked (C.NodeSource.coming containers) (C.NodeSource.ending containers) }
{
    Opening {
        containers,
        contained: model.source(asked.tag, k),
        axis: asked.axis,
        name: 100 + k,
    }
}

// Whole lists with their counts: were they cut by the walk, both of its calls would have to say so.
/// Step k: from the nodes in the first n rows of one list to the first rows of another, of which
/// it may use as many as there is room.
fn advance<M: Model>(
    model: &M,
    asked: Step,
    k: u16,
    n: usize,
    room: usize,
    from: &[Row],
    to: &mut [Row],
) -> Result<usize, StepFault>
    requires { (k ≤ max_steps) × ((n ≤ length from.now) × (room ≤ length to.old)) }
    ensures { Laid (step_means (scope M.Model model.now room) k asked (nodes_in (take n from.now)) (end_in 0 0 (take n from.now))) result to.new }
{
    let opening = opening(model, asked, k, ListSource::new(&from[..n], 0));
    step(opening, k, &mut to[..room])
}

/// Runs the steps; the lists take turns, so that the last step writes the answer list.
fn walk<M: Model>(
    model: &M,
    query: &Query,
    answer: &mut [Row],
    spare: &mut [Row],
) -> Result<usize, PathFault>
    ensures { Laid (walk_means (scope_of M.Model model.now (lists answer.old spare.old)) (steps_in query.now)) result answer.new }
{
    let steps = query.steps();
    let room = answer.len().min(spare.len());
    let mut n = 0;
    for (i, asked) in steps.iter().enumerate() {
        let k = i as u16 + 1;
        n = if (steps.len() - i) % 2 == 1 {
            advance(model, *asked, k, n, room, spare, answer)?
        } else {
            advance(model, *asked, k, n, room, answer, spare)?
        };
    }
    Ok(n)
}

/// Reads the query and runs its steps.
fn run<M: Model>(
    model: &M,
    query: &[u8],
    answer: &mut [Row],
    spare: &mut [Row],
) -> Result<usize, PathFault>
    ensures { Laid (path_of M.Model model.now query.now (lists answer.old spare.old)) result answer.new }
{
    let query = Query::read(query)?;
    walk(model, &query, answer, spare)
}

/// Makes the rows behind an answer blank: all of them where it is a refusal.
fn blank_behind(rows: &mut [Row], answer: Result<usize, PathFault>)
    requires { result_unwrap_or answer 0 ≤ length rows.old }
    ensures { rows.new ≡ blank_from (result_unwrap_or answer 0) rows.old }
{
    rows[answer.unwrap_or(0)..].fill(Row::BLANK);
}

// Two lists and not a pair of them: each is lent by the caller for itself.
/// Finds the nodes that fit the last step of a query, in tree order: they stand in the answer list,
/// blanks behind them, and their number is answered. The spare list is left blank, and so is the
/// answer list where the path is refused.
pub fn path<M: Model>(
    model: &M,
    query: &[u8],
    answer: &mut [Row],
    spare: &mut [Row],
) -> Result<usize, PathFault>
    ensures means { Answered (path_of M.Model model.now query.now (lists answer.old spare.old)) result (lists answer.old spare.old) (lists answer.new spare.new) }
    ensures law { KeepsLaw (scope_of M.Model model.now (lists answer.old spare.old)) query.now result (lists answer.old spare.old) (lists answer.new spare.new) }
{
    let result = run(model, query, answer, spare);
    spare.fill(Row::BLANK);
    blank_behind(answer, result);
    result
}
