// A fault stands where a part of the program begins (`faults_stand_within`), so its line and
// column can always be told.

use tg_base::Faulty;

/// A rule of typing.
#[derive(Clone, Copy, Debug, PartialEq, Eq)]
pub enum TypeRule {
    /// An unknown variable.
    T1,
    /// An unknown function.
    T2,
    /// An unknown type.
    T3,
    /// A function used as a variable.
    T4,
    /// A variable called.
    T5,
    /// A type mismatch.
    T6,
    /// Not a record.
    T7,
    /// No such field.
    T8,
    /// Not an array.
    T9,
    /// The wrong number of arguments.
    T10,
    /// The wrong fields.
    T11,
    /// A value is needed.
    T12,
    /// `nil` without a record type.
    T13,
    /// `break` outside a loop.
    T14,
    /// A loop variable is assigned.
    T15,
    /// A type declared twice in a group.
    T16,
    /// A function declared twice in a group.
    T17,
    /// A field or parameter declared twice.
    T18,
    /// A cycle of type names.
    T19,
    /// Functions nested too deep.
    T20,
    /// A function too large.
    T21,
    /// The program too large.
    T22,
}

/// Why a program isn't accepted: its first fault of types, at the first byte of the part where the
/// rule is broken, or out of memory.
pub type TypeFault = Faulty<TypeRule>;
