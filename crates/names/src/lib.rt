//! The names of operations.
#![tactic(auto)]

ghost use Rattle.std.specs.Prelude.{◌≡◌};
ghost use Rattle.instructions.specs.Numbers.{table};
ghost use Rattle.names.specs.Names.{spelt, named};

use instructions::operation::{Operation, TABLE};

/// The name of an operation; none for a number that the table does not have.
pub fn name(operation: Operation) -> &'static str
    ensures { result.now ≡ spelt operation }
{
    match operation {
        Operation::End => "End",
        Operation::Integer => "Integer",
        Operation::Set => "Set",
        Operation::Global => "Global",
        Operation::StoreGlobal => "StoreGlobal",
        Operation::Local => "Local",
        Operation::StoreLocal => "StoreLocal",
        Operation::Index => "Index",
        Operation::GlobalElement => "GlobalElement",
        Operation::StoreGlobalElement => "StoreGlobalElement",
        Operation::LocalElement => "LocalElement",
        Operation::StoreLocalElement => "StoreLocalElement",
        Operation::Copy => "Copy",
        Operation::Swap => "Swap",
        Operation::Add => "Add",
        Operation::Subtract => "Subtract",
        Operation::Multiply => "Multiply",
        Operation::Divide => "Divide",
        Operation::Modulo => "Modulo",
        Operation::Negate => "Negate",
        Operation::Absolute => "Absolute",
        Operation::Odd => "Odd",
        Operation::Equal => "Equal",
        Operation::Unequal => "Unequal",
        Operation::Less => "Less",
        Operation::LessEqual => "LessEqual",
        Operation::Greater => "Greater",
        Operation::GreaterEqual => "GreaterEqual",
        Operation::Not => "Not",
        Operation::Union => "Union",
        Operation::Difference => "Difference",
        Operation::Intersection => "Intersection",
        Operation::Element => "Element",
        Operation::In => "In",
        Operation::Include => "Include",
        Operation::Exclude => "Exclude",
        Operation::Jump => "Jump",
        Operation::JumpIf => "JumpIf",
        Operation::JumpUnless => "JumpUnless",
        Operation::Advance => "Advance",
        Operation::Channel => "Channel",
        Operation::Take => "Take",
        Operation::Put => "Put",
        Operation::Call => "Call",
        Operation::Enter => "Enter",
        Operation::Return => "Return",
        Operation::ReturnValue => "ReturnValue",
        Operation::NoResult => "NoResult",
        Operation::Other(_) => "",
    }
}

// The first of the operations whose name is the word.
fn named_among(operations: &[Operation], word: &[u8]) -> Option<Operation>
    ensures { result ≡ named operations.now word.now }
{
    operations
        .iter()
        .find(|operation| name(**operation).as_bytes() == word)
        .copied()
}

/// The operation whose name is the word.
pub fn by_name(word: &[u8]) -> Option<Operation>
    ensures { result ≡ named table word.now }
{
    named_among(&TABLE, word)
}
