// The types of the heap: limits, the two kinds of location, values, places, task entries, the table, answers.
// What they mean is said by the crate machine; nothing here computes.
#![tactic(auto)]

// The set-up limits: tasks P, longest object S, half size H, rate k.
#[derive(Clone, Copy)]
pub struct Limits {
    pub p: u32,
    pub s: u32,
    pub h: u32,
    pub k: u32,
}

// The pointer of a primary, and that of a replica: word numbers of two kinds. Nil is 0 in both.
#[derive(Clone, Copy, PartialEq, Eq)]
pub struct Primary(pub u32);

#[derive(Clone, Copy, PartialEq, Eq)]
pub struct Replica(pub u32);

// A value for a slot: a plain word, or a pointer. A Fill or a Store gives one with a primary's pointer; a replica's slot
// gets one with a replica's.
#[derive(Clone, Copy)]
pub enum Operand<P> {
    Plain(u32),
    Pointer(P),
}

// An object that a task makes: where it is, the register it goes to, its length L, the slots filled.
#[derive(Clone, Copy)]
pub struct Making {
    pub at: Primary,
    pub register: u32,
    pub len: u32,
    pub filled: u32,
}

// What a New asks for: the register that gets the object, its length L, its m pointer slots.
#[derive(Clone, Copy)]
pub struct Wanted {
    pub register: u32,
    pub len: u32,
    pub m: u32,
}

// A slot of an object.
#[derive(Clone, Copy, PartialEq, Eq)]
pub struct Slot {
    pub object: Primary,
    pub index: u32,
}

// What follows when the replica of a looked-at pointer is known.
#[derive(Clone, Copy)]
pub enum Then {
    // Store: the old pointer was looked at, the primary is to be written.
    ToWrite(Operand<Primary>),
    // Store: the new pointer's replica goes into the replica of the object.
    ToStoreCopy,
    // Fill: the same for the pending object.
    ToFillCopy,
    // A copy: payments left, the job's slot.
    ToPut(u32, Slot),
}

// A task's place in its current instruction: what its next step does.
#[derive(Clone, Copy)]
pub enum Place {
    Idle,
    New(Wanted),
    Asked(Wanted),
    FillWrite(Operand<Primary>),
    FillCopy(Operand<Replica>),
    StoreWrite(Operand<Primary>),
    Meet(Operand<Primary>),
    StoreCopy(Operand<Replica>),
    // copies left to pay, the present one included; then the job's slot
    Take(u32),
    Read(u32, Slot),
    Put(u32, Slot, Operand<Replica>),
    Release(u32, Slot),
    Looking(Primary, Then),
    // The object is claimed, and its replica not yet placed.
    Placing(Primary, Then),
}

#[derive(Clone, Copy)]
pub struct Task {
    pub regs: [Primary; 8],
    // The object that it makes, until a Fill has filled the last slot.
    pub pending: Option<Making>,
    // The slot of its unfinished Store, until its payment has ended.
    pub storing: Option<Slot>,
    pub place: Place,
}

// The numbers that steps move: the next unused word A, the lowest stack word, the jobs in hand J, the copies made.
#[derive(Clone, Copy)]
pub struct Marks {
    pub a: u32,
    pub top: u32,
    pub j: u32,
    pub copies: u32,
}

// Whether the heap lives, or what killed it.
#[derive(Clone, Copy)]
pub enum Life {
    Living,
    Spent,
    Broken,
}

#[derive(Clone, Copy)]
pub struct Table {
    pub limits: Limits,
    // The space in use is the upper one.
    pub upper: bool,
    // The collector is on.
    pub on: bool,
    pub marks: Marks,
    pub life: Life,
    pub roots: [Primary; 8],
    pub tasks: [Task; 8],
}

// The refusals, by their numbers.
#[derive(Clone, Copy)]
pub enum Refusal {
    WrongLimit = 1,
    NoTask,
    NoRegister,
    NilObject,
    NoSlot,
    OutOfTurn,
    Held,
    SlotInStore,
    NoRoom,
    Exhausted,
    Damaged,
}

#[derive(Clone, Copy)]
pub enum Answer {
    // Set up, or begun.
    Accepted,
    Done,
    Value(u32),
    Moved,
    Wait(u32),
    // Collecting or not, the words A minus the bottom, the copies of the latest collection.
    Report(bool, u32, u32),
    No(Refusal),
}

#[derive(Clone, Copy)]
pub struct Outcome {
    pub table: Table,
    pub answer: Answer,
}

// What an object's descriptor says: its L and m.
#[derive(Clone, Copy)]
pub struct Descriptor {
    pub len: u32,
    pub m: u32,
}

// What a look at an object of length L finds: its header is 0 (with L), it is 1, or it is the replica's pointer (with L). (An enum,
// as 01 lays it down: who needs the replica takes it out by `let .. else`.)
#[derive(Clone, Copy)]
pub enum Look {
    White(u32),
    Claimed,
    Forwarded(Replica, u32),
    Lost,
}

// What a replica's header says: slots still to copy, a locked slot, or what no header can. (One match tells the three apart; an
// Option of the first two would take two.)
#[derive(Clone, Copy)]
pub enum Copying {
    Count(u32),
    Locked(u32),
    Neither,
}

// What a task holds at its place: it is idle, its New has asked, it is busy and holds nothing, or it has a job
// (its slot), a claim, or both (the claim first).
#[derive(Clone, Copy)]
pub enum Holding {
    Rests,
    Asks,
    Free,
    Job(Slot),
    Claim(Primary),
    Both(Primary, Slot),
}

// Whom a search over the tasks looks for.
#[derive(Clone, Copy)]
pub enum Sought {
    // The task that claimed this object.
    Claimer(Primary),
    // The task with this slot as its job.
    Holder(Slot),
    // Another task than this one, with a job or a claim.
    Worker(u32),
    // Another task than this one, neither idle nor with a New that has asked.
    Blocker(u32),
    // Any task with a claim; one whose New has asked; one that is not idle.
    Claiming,
    Asking,
    Busy,
}

// What an action does: its task moves on or its instruction ends, with the pending object as it was or changed;
// it waits; or it fails. (Six ends of which each is matched once: a Result would set one of them apart.)
#[derive(Clone, Copy)]
pub enum Deed {
    Goes(Marks, Place),
    GoesWith(Marks, Option<Making>, Place),
    Ends(Marks),
    EndsWith(Marks, Option<Making>),
    Waits(Sought),
    Fails(Refusal),
}
