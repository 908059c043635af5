// The model that all crates share, and its laws: each function's contract is a theorem of specs/.
#![tactic(auto)]

ghost use Rattle.fs.specs.Beginning.{Completes, FailsEarly, HasAnOrder};
ghost use Rattle.fs.specs.Bill.{BillFits, WithinBill, WithinShare};
ghost use Rattle.fs.specs.Change.{RefusedByFirstGround, AltersOnePath};
ghost use Rattle.fs.specs.Fs.{StaysSound};
ghost use Rattle.fs.specs.Judgement.{Accepts, CircleIsLeast, ClashIsLeast, Judged, SteadyIsTested};
ghost use Rattle.fs.specs.Limits.{Enough, Faithful, NeverShort, Refuses};
ghost use Rattle.fs.specs.Order.{OrderIsFree, SteadyRests};
ghost use Rattle.fs.specs.Package.{ProperlyPacked};
ghost use Rattle.fs.specs.Room.{Room};
ghost use Rattle.fs.specs.Samples.{Samples};
ghost use Rattle.fs.specs.Start.{StartSuffices};
ghost use Rattle.fs.specs.Trace.{ChangedByMarker, Traced};
ghost use Rattle.fs.specs.Tree.{EqualTrees};

// Two sorted trees that give every path the same are the same value.
pub fn equal_trees()
    ensures { EqualTrees }
{}

// A change is refused by the first of its grounds that stands, and taken where none does.
pub fn refused_by_first_ground()
    ensures { RefusedByFirstGround }
{}

// A taken change alters its one path, and costs one of the allowance.
pub fn alters_one_path()
    ensures { AltersOnePath }
{}

// Any two permitted orders of an accepted manifest, on any tree, both fail, or both give the same tree,
// the same count of changes and the same due services.
pub fn order_is_free()
    ensures { OrderIsFree }
{}

// Where a permitted beginning of an accepted manifest fails, every permitted order of it fails.
pub fn fails_early()
    ensures { FailsEarly }
{}

// Where no walk along the edges is a circle, every permitted beginning goes on to a permitted order.
pub fn completes()
    ensures { Completes }
{}

// An accepted manifest has a permitted order.
pub fn has_an_order()
    ensures { HasAnOrder }
{}

// From the tree to which a steady manifest evaluates, every permitted order succeeds, gives that tree again,
// counts no change, leaves each resource unchanged, and no service is due.
pub fn steady_rests()
    ensures { SteadyRests }
{}

// After each single change of an evaluation, begun or whole, the tree has at most the nodes at its start and the need.
pub fn room()
    ensures { Room }
{}

// No resource makes more changes than its share of the bill, whether it succeeds or fails.
pub fn within_share()
    ensures { WithinShare }
{}

// No evaluation, begun or whole, makes more changes than the bill, whether it succeeds or fails.
pub fn within_bill()
    ensures { WithinBill }
{}

// At most 32 resources, at most 8 of them packages, of at most 16 entries each: the bill is at most 320.
pub fn bill_fits()
    ensures { BillFits }
{}

// A rig with free nodes for the need and allowance for the changes takes all of an evaluation, and ends with its tree.
pub fn enough()
    ensures { Enough }
{}

// What a rig takes in full is what the evaluation says, at one of the allowance for each change.
pub fn faithful()
    ensures { Faithful }
{}

// Where a rig refuses, the evaluation fails, or the rig wants a free node or allowance.
pub fn refuses()
    ensures { Refuses }
{}

// With free nodes for the need and allowance for the bill, a rig refuses nothing for want of either.
pub fn never_short()
    ensures { NeverShort }
{}

// After a start that is not refused, the limits of a rig take no part: what evaluates is taken, and what is refused
// fails without limits too.
pub fn start_suffices()
    ensures { StartSuffices }
{}

// A sorted tree whose nodes all have directories as parents stays one.
pub fn stays_sound()
    ensures { StaysSound }
{}

// The trace of an evaluation is allowed change by change, has the changes that are counted, and makes its tree.
pub fn traced()
    ensures { Traced }
{}

// A package that succeeds is changed exactly where it made its marker.
pub fn changed_by_marker()
    ensures { ChangedByMarker }
{}

// Entries at distinct paths, none of them `/pkg` or below it, make a package whose steps are all at distinct paths.
pub fn properly_packed()
    ensures { ProperlyPacked }
{}

// No circle and no clash is found exactly in an accepted manifest.
pub fn accepts()
    ensures { Accepts }
{}

// The circle that is found is given by the smallest of all numbers on a circle.
pub fn circle_is_least()
    ensures { CircleIsLeast }
{}

// The clash that is found is between unordered resources, and the least such pair.
pub fn clash_is_least()
    ensures { ClashIsLeast }
{}

// The test for a steady manifest passes exactly where it is steady.
pub fn steady_is_tested()
    ensures { SteadyIsTested }
{}

// Each verdict is true of its manifest.
pub fn judged()
    ensures { Judged }
{}

// The eight samples come out as they should.
pub fn samples()
    ensures { Samples }
{}
