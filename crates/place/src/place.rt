// The call: a list is read, then answered.
ghost use Rattle.std.specs.Prelude.{◌≡◌, length};
ghost use Rattle.calls.specs.Answers as answers;
ghost use Rattle.calls.specs.Answers.{outcome};
ghost use Rattle.reader.specs.Readings.{ReadAs};
ghost use Rattle.reader.specs.Refusals.{made_by};
ghost use Rattle.place_tests.specs.Choice.{ChosenIs};

use crate::change::ChangeList;
use accounting::tally;
use gens::joint;
use next_fit::slot::Slot;
use place_keys::dirty::DirtyPlan;
use place_keys::plan::Plan;
use place_keys::{clock, dirty};
use place_tests::asked::Placement;
use place_tests::refusals::Chosen;
use reader::call_kinds::Call;
use reader::pieces::Pieces;
use reader::read_list::ReadList;
use reader::refusal::Refusal;
use reader::{answer, call};
use wire::kinds::Bucket;

// The answer where the buckets are taken: their generations, their dirty counts, the tallies and the clock, and the change list.
// A function of its own, since a table is cleared where its function begins: a refused placement does not clear these.
fn place_buckets(asked: &Placement, chosen: Chosen, out: &mut [u8]) -> Result<usize, Refusal>
    requires { ReadAs (Some 1) asked.now.read.now × ChosenIs asked.now.read.now.list.now (Ok chosen) }
    ensures { made_by result out.new ≡ outcome (answers.place asked.now.read.now.list.now (length out.old)) out.old }
{
    let mut gens = [0u8; 1024];
    let mut dirty = [0u32; 1024];
    let read = asked.read;
    joint::bucket_gens(&mut gens, read.gens, chosen.taken);
    let plan = Plan {
        list: read.list,
        pieces: asked.pieces,
        slots: chosen.slots,
        taken: chosen.taken,
        gens: &gens[..chosen.taken.len()],
        head: read.head,
        sectors: chosen.sectors,
        option: chosen.option,
    };
    dirty::fill_dirty(&mut dirty, &plan);
    let changes = ChangeList {
        counted: DirtyPlan {
            plan: &plan,
            dirty: &dirty,
        },
        runs: read.freespace,
        walked: chosen.walked,
        tallies: tally::tally_pieces(&asked.pieces),
        clock: clock::write_clock(&read.alloc),
    };
    answer::written(&changes, out)
}

// The answer to a list that was read: refusals 4 to 13, or its change list.
// No type holds `ReadAs`: a `ReadList` is one for all calls and volumes, and `ReadAs` names what it was read as.
fn place_read(read: &ReadList, out: &mut [u8]) -> Result<usize, Refusal>
    requires { ReadAs (Some 1) read.now }
    ensures { made_by result out.new ≡ outcome (answers.place read.now.list.now (length out.old)) out.old }
{
    let mut taken = [Bucket(0); 1024];
    let mut slots = [Slot {
        index: 0,
        offset: 0,
    }; 1024];
    let pieces = Pieces::asked(read);
    let asked = Placement { read, pieces };
    let chosen = asked.choose(&mut taken, &mut slots)?;
    place_buckets(&asked, chosen, out)
}

// Place: for any list and any output, how many bytes are written or the refusal, and the output, that the definition gives.
pub fn place(list: &[u8], out: &mut [u8]) -> Result<usize, Refusal>
    ensures { made_by result out.new ≡ outcome (answers.place list.now (length out.old)) out.old }
{
    call::with_list(
        list,
        Some(Call::Place.number()),
        &mut [],
        out,
        |read, _, out| place_read(read, out),
    )
}
