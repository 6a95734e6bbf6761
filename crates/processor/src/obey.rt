ghost use Rattle.instructions.specs.Moves.{Does};
ghost use Rattle.instructions.specs.Table.{obeyed};

use calculation::apply::{binary, check, combine, relate, test, unary};
use control::flow::{self, is_channel};
use instructions::answers::{Fault, Trap};
use instructions::area::Area;
use instructions::operation::Operation;
use memory::Memory;
use movement::moves;

/// Carries out an operation that calls nothing of the port.
pub fn obey(m: &mut Memory, operation: Operation, operand: u16) -> Result<(), Fault>
    ensures { Does (obeyed operation operand) m.old result m.new }
{
    // A match and no table of functions: each arm hands over what its shape takes, and all become one jump.
    match operation {
        Operation::End => flow::end(m),
        Operation::Integer => m.push(i32::from(operand.cast_signed())),
        Operation::Set => m.push(i32::from(operand)),
        Operation::Global => moves::load(m, Area::Globals, operand),
        Operation::StoreGlobal => moves::store(m, Area::Globals, operand),
        Operation::Local => moves::load(m, Area::Variables, operand),
        Operation::StoreLocal => moves::store(m, Area::Variables, operand),
        Operation::Index => moves::index(m, operand),
        Operation::GlobalElement => moves::load_element(m, Area::Globals, operand),
        Operation::StoreGlobalElement => moves::store_element(m, Area::Globals, operand),
        Operation::LocalElement => moves::load_element(m, Area::Variables, operand),
        Operation::StoreLocalElement => moves::store_element(m, Area::Variables, operand),
        Operation::Copy => moves::copy(m, operand),
        Operation::Swap => moves::swap(m),
        Operation::Add => binary(m, Trap::Range, integer::add),
        Operation::Subtract => binary(m, Trap::Range, integer::subtract),
        Operation::Multiply => binary(m, Trap::Range, integer::multiply),
        Operation::Divide => binary(
            m,
            Trap::Divisor,
            |x, y| integer::divide(x, y).map(|pair| pair.0),
        ),
        Operation::Modulo => binary(
            m,
            Trap::Divisor,
            |x, y| integer::divide(x, y).map(|pair| pair.1),
        ),
        Operation::Negate => unary(m, Trap::Range, integer::negate),
        Operation::Absolute => unary(m, Trap::Range, integer::absolute),
        Operation::Odd => test(m, |x| matches!(integer::divide(x, 2), Some((_, 1)))),
        Operation::Equal => relate(m, |x, y| x == y),
        Operation::Unequal => relate(m, |x, y| x != y),
        Operation::Less => relate(m, |x, y| x < y),
        Operation::LessEqual => relate(m, |x, y| x <= y),
        Operation::Greater => relate(m, |x, y| x > y),
        Operation::GreaterEqual => relate(m, |x, y| x >= y),
        Operation::Not => test(m, |x| x == 0),
        Operation::Union => combine(m, integer::union),
        Operation::Difference => combine(m, integer::difference),
        Operation::Intersection => combine(m, integer::intersection),
        Operation::Element => check(m, Trap::Element, |x| (0..16).contains(&x)),
        Operation::In => binary(
            m,
            Trap::Element,
            |x, set| integer::contains(set, x).map(i32::from),
        ),
        Operation::Include => binary(m, Trap::Element, |x, set| integer::include(set, x)),
        Operation::Exclude => binary(m, Trap::Element, |x, set| integer::exclude(set, x)),
        Operation::Jump => flow::jump(m, operand),
        Operation::JumpIf => flow::jump_where(m, true, operand),
        Operation::JumpUnless => flow::jump_where(m, false, operand),
        Operation::Advance => flow::advance(m),
        Operation::Channel => check(m, Trap::Channel, is_channel),
        Operation::Call => flow::call(m, operand),
        Operation::Enter => m.make_variables(operand),
        Operation::Return => m.close_activation(),
        Operation::ReturnValue => flow::return_value(m),
        Operation::NoResult => Err(Fault::Trap(Trap::NoResult)),
        Operation::Take | Operation::Put | Operation::Other(_) => Err(Fault::Broken),
    }
}
