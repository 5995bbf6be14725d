//! The laws.
ghost use Rattle.us_code_laws.specs.Laws.{Sequence, PhasesInSequence, Loop, DependsOnNames, KeepsBuffers, KeepsRegisters, TypedInSequence, TypedIsSound, TypedWhereMoreIsVisible, UnboundMeansUntyped};
ghost use Rattle.us_code_laws.specs.Ordered.{OrderedByKeys};
ghost use Rattle.us_code_laws.specs.Programs.{TypedProgramsRun};
ghost use Rattle.us_code_laws.specs.Rules.{StatementRules};

/// Two blocks, one after the other, are the second after the first.
pub fn blocks_in_sequence()
    ensures { Sequence }
{}

/// A `for` is its turns, one after the other.
pub fn for_is_its_turns()
    ensures { Loop }
{}

/// A block changes no new buffer that it neither sets nor orders.
pub fn keeps_buffers()
    ensures { KeepsBuffers }
{}

/// A block changes no register that it gives no value.
pub fn keeps_registers()
    ensures { KeepsRegisters }
{}

/// A typed block is never stuck, and keeps all kinds.
pub fn typed_is_sound()
    ensures { TypedIsSound }
{}

/// Two lists of phases, one after the other, are the second after the first.
pub fn phases_in_sequence()
    ensures { PhasesInSequence }
{}

/// A block's effect and steps depend on nothing that it doesn't name.
pub fn depends_on_names()
    ensures { DependsOnNames }
{}

/// A program is typed exactly where it has no first item that breaks a rule.
pub fn unbound_means_untyped()
    ensures { UnboundMeansUntyped }
{}

/// A block that is typed behind a typed one makes one typed block with it.
pub fn typed_in_sequence()
    ensures { TypedInSequence }
{}

/// A typed block stays typed where more is visible, if it introduces nothing of that.
pub fn typed_where_more_is_visible()
    ensures { TypedWhereMoreIsVisible }
{}

/// What each statement does to a state, and what it costs.
pub fn statement_rules()
    ensures { StatementRules }
{}

/// A typed program is never stuck, whatever its sources.
pub fn typed_programs_run()
    ensures { TypedProgramsRun }
{}

/// What an `order` writes: each place once, by its keys, then by itself.
pub fn ordered_by_keys()
    ensures { OrderedByKeys }
{}
