//! Laws on what the tool answers.

ghost use Rattle.std.specs.Prelude.{◌≡◌, ◌++◌, ◌∷◌, [], ℕ, ◌≤◌, List, length, Some, None, Ok, slice_get};
ghost use Rattle.n2_outside.specs.Files.{Files, file_at};
ghost use Rattle.n2_front.specs.Front.{Front};
ghost use Rattle.n2_order.specs.Orders.{Asked as Order};
ghost use Rattle.n2_journal.specs.Journals.{Content, IsWithinLimits};
ghost use Rattle.n2_journal.specs.Reading.{read as reading_of};
ghost use Rattle.n2_runs.specs.Machine.{start};
ghost use Rattle.n2_runs.specs.Recorded.{Records, actors_of, journal_of};
ghost use Rattle.n2_inputs.specs.declared.inputs.Inputs.{Inputs};
ghost use Rattle.n2_inputs.specs.declared.refusal.Role.TheVariants.{Journal};
ghost use Rattle.n2_inputs.specs.Refusals.{limit_of};
ghost use Rattle.n2_inputs.specs.Asked.{asked_run, asked_replay, IsReady};
ghost use Rattle.n2_inputs.specs.Boards.{asked_machine};
ghost use Rattle.n2_top.specs.Machines.{caching, without_caches};
ghost use Rattle.n2_top.specs.Headline.{Agreeing, IsOwnTurn, IsRefusedWhereBroken};
ghost use Rattle.n2_top.specs.Runs.{end_by, report_answer};
ghost use Rattle.n2_top.specs.Step.{step_answer};
ghost use Rattle.n2_top.specs.Replay.{replay_answer};
ghost use Rattle.n2_top.specs.Flat.{flat_answer, flat_run_answer};
ghost use Rattle.n2_top.specs.Written.{unwritten, HaveFlatPart};

/// Along every order of turns the two machines agree, each core makes its own acts in its own order, and a core
/// is refused or strays exactly where its next instruction breaks the discipline in the flat machine, with
/// that kind, program counter, word, address and line. So it is along the order of every run that `step`,
/// `replay`, `flat` and `bench` make.
pub fn every_order()
    ensures agrees { (inputs : Inputs) (order : List ℕ) → IsReady inputs → Agreeing inputs order }
    ensures own_order { (inputs : Inputs) (order : List ℕ) (actor : ℕ) → IsReady inputs → IsOwnTurn inputs order actor }
    ensures refused { (inputs : Inputs) (order : List ℕ) (core : ℕ) (f g : Front) → IsReady inputs → f.stop ≡ None → slice_get (without_caches inputs order).cores core ≡ Some f → slice_get (without_caches inputs (order ++ core ∷ [])).cores core ≡ Some g → IsRefusedWhereBroken inputs order core f g }
{}

/// Over the journal of a finished run `replay` answers the report of the machine with caches after the run
/// along the journal's order, and `flat` the report of the flat machine along the acts of that run. Both have
/// the flat machine's registers, stops, refusals and bytes of UARTs.
pub fn recorded_runs()
    ensures replay { (inputs : Inputs) (journal : Content) → IsReady inputs → Records inputs.board inputs.layout (start inputs.board inputs.images) journal → replay_answer inputs journal ≡ Ok (report_answer inputs.board inputs.layout (caching inputs (actors_of journal))) }
    ensures flat { (inputs : Inputs) (journal : Content) → IsReady inputs → Records inputs.board inputs.layout (start inputs.board inputs.images) journal → flat_run_answer inputs journal ≡ Ok (flat_answer inputs.board (without_caches inputs (actors_of journal))) }
    ensures flat_part { (inputs : Inputs) (order : List ℕ) → IsReady inputs → HaveFlatPart inputs.board (without_caches inputs order) (report_answer inputs.board inputs.layout (caching inputs order)).report (flat_answer inputs.board (without_caches inputs order)).report }
{}

/// What `step` writes to the journal reads back as the journal of its run, and `replay` of it answers the
/// report and the status that `step` answered. The premise on the journal is one that every run of
/// the machine meets: its numbers are those of their types.
pub fn written_runs()
    ensures records { (inputs : Inputs) (order : Order) (list : List ℕ) → IsReady inputs → Records inputs.board inputs.layout (start inputs.board inputs.images) (journal_of (end_by inputs order list)) }
    ensures read { (inputs : Inputs) (order : Order) (list : List ℕ) → IsWithinLimits (journal_of (end_by inputs order list)) → reading_of (step_answer inputs order list).journal ≡ Ok (journal_of (end_by inputs order list)) }
    ensures replay { (inputs : Inputs) (order : Order) (list : List ℕ) → IsReady inputs → replay_answer inputs (journal_of (end_by inputs order list)) ≡ Ok (unwritten (step_answer inputs order list)) }
    ensures asked { (files after : Files) (board name : List ℕ) (order : Order) (inputs : Inputs) (list : List ℕ) → asked_run files board order ≡ Ok (inputs, list) → IsWithinLimits (journal_of (end_by inputs order list)) → asked_machine after board ≡ asked_machine files board → file_at after name ≡ Some (step_answer inputs order list).journal → length (step_answer inputs order list).journal ≤ limit_of Journal → asked_replay after board name ≡ Ok (inputs, journal_of (end_by inputs order list)) }
{}
