//! One step of a path.

ghost use Rattle.merge.specs.View.{opening_of};
ghost use Rattle.under.specs.Nodes.{run_ending};
ghost use Rattle.paths.specs.Drain.{Drained};
ghost use Rattle.paths.specs.Path.{step_nodes};

use crate::fault::StepFault;
use merge::opening::Opening;
use nodes::row::Row;
use nodes::source::NodeSource;
use under::under::Under;

/// Writes the nodes of a source as rows, from the first row on, up to its end; one node more than
/// there are rows is refused.
fn drain<S: NodeSource + Drop>(
    mut source: S,
    step: u32,
    out: &mut [Row],
) -> Result<usize, StepFault>
    ensures { Drained step (S.NodeSource.coming source) (S.NodeSource.ending source) result out.old out.new }
{
    let stopped = |fault| StepFault::Stopped { step, fault };
    for (count, row) in out.iter_mut().enumerate() {
        let Some(node) = source.take().map_err(stopped)? else {
            return Ok(count);
        };
        *row = Row::from(node);
    }
    match source.take().map_err(stopped)? {
        Some(_) => Err(StepFault::Full { step }),
        None => Ok(out.len()),
    }
}

/// Step k: the contained nodes of its run that fit, as rows.
pub(crate) fn step<C: NodeSource + Drop, D: NodeSource + Drop>(
    opening: Opening<C, D>,
    k: u16,
    out: &mut [Row],
) -> Result<usize, StepFault>
    ensures { Drained k (step_nodes k (opening_of C.NodeSource D.NodeSource opening)) (run_ending (opening_of C.NodeSource D.NodeSource opening)) result out.old out.new }
{
    let step = u32::from(k);
    if k == 1 {
        drain(Under::first_step(opening), step, out)
    } else {
        drain(Under::new(opening), step, out)
    }
}
