//! How expressions, variables and actuals give way to their parts: the last part is put first, and the first one is opened at once, down to
//! an instruction. Where that is most of what is done the hints keep the way short.

ghost use Rattle.std.specs.Prelude.{◌≡◌, ◌+◌, ◌≤◌, length, map};
ghost use Rattle.ob_code_scheme.specs.Layout as Words;
ghost use Rattle.ob_code_scheme.specs.Scheme as Scheme;
ghost use Rattle.ob_code_scheme.specs.Types as Sizes;
ghost use Rattle.ob_code_scheme.specs.Types.{Scope};
ghost use Rattle.ob_typing.specs.Program as Program;
ghost use Rattle.ob_checked.specs.View.{owner_of, actual_of, designator_of, expression_of, operations_in, selectors_in};
ghost use Rattle.ob_layout.specs.Layout.{block_in};
ghost use Rattle.ob_tree_tasks.specs.Opening.{CanBeOpened, GivesWay, element_tasks, field_tasks, global_tasks, own_variable_tasks};
ghost use Rattle.ob_tree_tasks.specs.Operands.{OpensOperator, OpensOuter};
ghost use Rattle.ob_tree_tasks.specs.Scoped.{own_in, type_in};
ghost use Rattle.ob_tree_tasks.specs.WorkTasks.{HasRoom, HasRoomFor, before, with_first, with_tasks};
ghost use Rattle.ob_tree_law.specs.Work as Work;

use crate::scopes::Scopes;
use crate::task::Task;
use crate::work_list::WorkList;
use ob_checked::program::{Actual, Designator, Expression, Operation, Owner, Selector};
use ob_checked::types::DataType;
use ob_code_machine::Instr;
use ob_interface::scalar::Scalar;
use ob_layout::Layout;
use ob_typing::operator::{BinaryOperator, Relation};

/// The number of a literal: TRUE is 1 and FALSE is 0.
fn number_of(scalar: Scalar) -> i32
    ensures { result ≡ Words.word scalar }
{
    match scalar {
        Scalar::Int(number) => number,
        Scalar::Bool(truth) => i32::from(truth),
    }
}

fn relation_instruction(relation: Relation) -> Instr
    ensures { result ≡ Scheme.relation_instruction relation }
{
    match relation {
        Relation::Equal => Instr::Equal,
        Relation::NotEqual => Instr::NotEqual,
        Relation::Less => Instr::Less,
        Relation::LessOrEqual => Instr::LessOrEqual,
        Relation::Greater => Instr::Greater,
        Relation::GreaterOrEqual => Instr::GreaterOrEqual,
    }
}

/// The value of an expression.
#[inline(never)]
pub fn open_value<'a>(
    work: &mut WorkList<'a>,
    layout: &'a Layout,
    own: Scopes<'a>,
    expression: &'a Expression,
)
    requires room { HasRoom work.old }
    requires fits { CanBeOpened (block_in layout.now) (with_first (Work.Value (own_in own) (expression_of expression.now)) work.old) }
    ensures { GivesWay (block_in layout.now) (with_first (Work.Value (own_in own.entry) (expression_of expression.now)) work.old) work.new }
{
    let mut first = expression;
    while let Some(operand) = open_outer(work, layout, own, first) {
        first = operand;
    }
}

/// The value of a literal.
fn open_literal<'a>(work: &mut WorkList<'a>, scalar: Scalar)
    requires { HasRoom work.old }
    ensures { (globals own : Scope) → work.new ≡ before (Work.value_parts globals own (Program.Literal scalar)) work.old }
{
    let value = number_of(scalar);
    work.push(Task::Instruction(Instr::Literal { value }));
}

/// An expression without its first operand, which it gives; one that has no operand is opened.
fn open_outer<'a>(
    work: &mut WorkList<'a>,
    layout: &'a Layout,
    own: Scopes<'a>,
    expression: &'a Expression,
) -> Option<&'a Expression>
    requires room { HasRoom work.old }
    requires fits { CanBeOpened (block_in layout.now) (with_first (Work.Value (own_in own) (expression_of expression.now)) work.old) }
    ensures { OpensOuter (block_in layout.now) (own_in own.entry) (expression_of expression.now) work.old work.new result }
{
    match expression {
        Expression::Literal(scalar) => {
            open_literal(work, *scalar);
            None
        }
        Expression::ValueOf { variable, .. } => {
            work.push(Task::Instruction(Instr::Get));
            open_address(work, layout, own, variable);
            None
        }
        Expression::Negated(operand) => {
            work.push(Task::Instruction(Instr::Negate));
            Some(operand)
        }
        Expression::Complement(operand) => {
            work.push(Task::Instruction(Instr::Not));
            Some(operand)
        }
        Expression::Computed { first, rest } => {
            work.push(Task::Operators {
                own,
                operations: rest.as_slice(),
            });
            Some(first)
        }
        Expression::Compared {
            relation,
            left,
            right,
        } => {
            work.push(Task::Instruction(relation_instruction(*relation)));
            work.push(Task::Value {
                own,
                expression: right,
            });
            Some(left)
        }
    }
}

/// Operators and operands.
pub fn open_operators<'a>(
    work: &mut WorkList<'a>,
    layout: &'a Layout,
    own: Scopes<'a>,
    operations: &'a [Operation],
)
    requires room { HasRoom work.old }
    requires fits { CanBeOpened (block_in layout.now) (with_first (Work.Operators (own_in own) (operations_in operations.now)) work.old) }
    ensures { GivesWay (block_in layout.now) (with_first (Work.Operators (own_in own.entry) (operations_in operations.now)) work.old) work.new }
{
    let Some((operation, rest)) = operations.split_first() else {
        return;
    };
    leave_operators(work, own, rest);
    if let Some(operand) = open_operator(work, own, operation) {
        open_value(work, layout, own, operand);
    }
}

/// The operators that are left, where there are some.
fn leave_operators<'a>(work: &mut WorkList<'a>, own: Scopes<'a>, operations: &'a [Operation])
    requires { HasRoom work.old }
    ensures left { work.new ≡ before (Work.operators_left (own_in own.entry) (operations_in operations.now)) work.old }
    ensures few { length work.new.tasks ≤ length work.old.tasks + 1 }
{
    if !operations.is_empty() {
        work.push(Task::Operators { own, operations });
    }
}

/// An operator: the instruction behind its right operand, which it gives, or for `&` and OR the task that decides.
fn open_operator<'a>(
    work: &mut WorkList<'a>,
    own: Scopes<'a>,
    operation: &'a Operation,
) -> Option<&'a Expression>
    requires { HasRoomFor 2 work.old }
    ensures { OpensOperator (own_in own.entry) operation.now.operator (expression_of operation.now.operand) work.old work.new result }
{
    let operand = &operation.operand;
    let instr = match operation.operator {
        BinaryOperator::And => {
            work.push(Task::AndThen {
                own,
                right: operand,
            });
            return None;
        }
        BinaryOperator::Or => {
            work.push(Task::OrElse {
                own,
                right: operand,
            });
            return None;
        }
        BinaryOperator::Plus => Instr::Add,
        BinaryOperator::Minus => Instr::Subtract,
        BinaryOperator::Times => Instr::Multiply,
        BinaryOperator::Div => Instr::Divide,
        BinaryOperator::Mod => Instr::Modulo,
    };
    work.push(Task::Instruction(instr));
    Some(operand)
}

/// The selectors that are left, where there are some.
#[inline(always)]
fn leave_selectors<'a>(
    work: &mut WorkList<'a>,
    own: Scopes<'a>,
    layout: &'a Layout,
    data_type: DataType,
    selectors: &'a [Selector],
)
    requires { HasRoom work.old }
    ensures left { work.new ≡ before (Work.selecting_left (own_in own.entry) (type_in layout.now data_type) (selectors_in selectors.now)) work.old }
    ensures few { length work.new.tasks ≤ length work.old.tasks + 1 }
{
    if !selectors.is_empty() {
        work.push(Task::Selecting {
            own,
            layout,
            data_type,
            selectors,
        });
    }
}

/// The address of a variable of the module, and selectors behind it.
#[inline(always)]
fn open_global<'a>(
    work: &mut WorkList<'a>,
    layout: &'a Layout,
    own: Scopes<'a>,
    position: usize,
    selectors: &'a [Selector],
)
    requires room { HasRoom work.old }
    requires small { Sizes.word_in (block_in layout.now) position ≤ 65535 }
    ensures { work.new ≡ with_tasks work.old (global_tasks (block_in layout.now) (own_in own.entry) position (selectors_in selectors.now) work.old.tasks) }
{
    let place = layout.variable(position);
    leave_selectors(work, own, layout, place.data_type, selectors);
    work.push(Task::Instruction(Instr::Global {
        word: place.word as u16,
    }));
}

/// The address of a variable of the procedure, and selectors behind it.
#[inline(always)]
fn open_own<'a>(
    work: &mut WorkList<'a>,
    own: Scopes<'a>,
    position: usize,
    selectors: &'a [Selector],
)
    requires room { HasRoom work.old }
    requires small { Sizes.word_in (own_in own) position ≤ 65535 }
    ensures { work.new ≡ with_tasks work.old (own_variable_tasks (own_in own.entry) position (selectors_in selectors.now) work.old.tasks) }
{
    let place = own.layout.own(own.procedure, position);
    leave_selectors(work, own, own.layout, place.data_type, selectors);
    if place.is_var {
        work.push(Task::Instruction(Instr::Get));
    }
    work.push(Task::Instruction(Instr::Local {
        word: place.word as u16,
    }));
}

/// The address of a variable or of a part of it.
#[inline(always)]
pub fn open_address<'a>(
    work: &mut WorkList<'a>,
    layout: &'a Layout,
    own: Scopes<'a>,
    designator: &'a Designator,
)
    requires room { HasRoom work.old }
    requires small { Sizes.word_in (Sizes.scope_of (block_in layout.now) (own_in own) (owner_of designator.now.slot.owner)) designator.now.slot.position ≤ 65535 }
    ensures { work.new ≡ before (Work.address_parts (block_in layout.now) (own_in own.entry) (designator_of designator.now)) work.old }
{
    let position = designator.slot.position;
    let selectors = designator.selectors.as_slice();
    match designator.slot.owner {
        Owner::Module => open_global(work, layout, own, position, selectors),
        Owner::Own => open_own(work, own, position, selectors),
    }
}

/// From the address of something of a type, which a layout knows by its number, to that of a part of it.
#[inline(never)]
pub fn open_selecting<'a>(
    work: &mut WorkList<'a>,
    layout: &'a Layout,
    own: Scopes<'a>,
    types: &'a Layout,
    data_type: DataType,
    selectors: &'a [Selector],
)
    requires room { HasRoom work.old }
    requires fits { CanBeOpened (block_in layout.now) (with_first (Work.Selecting (own_in own) (type_in types.now data_type) (selectors_in selectors.now)) work.old) }
    ensures { GivesWay (block_in layout.now) (with_first (Work.Selecting (own_in own.entry) (type_in types.now data_type) (selectors_in selectors.now)) work.old) work.new }
{
    let Some((selector, rest)) = selectors.split_first() else {
        return;
    };
    match selector {
        Selector::Field { position, .. } => {
            open_field(work, own, types, data_type, *position, rest)
        },
        Selector::Element { length, index } => {
            leave_element(work, own, types, data_type, *length, rest);
            open_value(work, layout, own, index);
        }
    }
}

/// A field, and selectors behind it.
fn open_field<'a>(
    work: &mut WorkList<'a>,
    own: Scopes<'a>,
    layout: &'a Layout,
    data_type: DataType,
    position: usize,
    rest: &'a [Selector],
)
    requires room { HasRoom work.old }
    requires small { Sizes.part_offset (type_in layout.now data_type) position ≤ 65535 }
    ensures { work.new ≡ with_tasks work.old (field_tasks (own_in own.entry) (type_in layout.now data_type) position (selectors_in rest.now) work.old.tasks) }
{
    let offset = layout.part_offset(data_type, position) as u16;
    let part = layout.part_type(data_type, position);
    leave_selectors(work, own, layout, part, rest);
    work.push(Task::Instruction(Instr::Field { offset }));
}

/// What stands behind an index, and selectors behind that.
fn leave_element<'a>(
    work: &mut WorkList<'a>,
    own: Scopes<'a>,
    layout: &'a Layout,
    data_type: DataType,
    length: usize,
    rest: &'a [Selector],
)
    requires room { HasRoom work.old }
    requires short { length ≤ 65535 }
    requires small { Sizes.words (Sizes.part_type (type_in layout.now data_type) 0) ≤ 65535 }
    ensures { work.new ≡ with_tasks work.old (element_tasks (own_in own.entry) (type_in layout.now data_type) length (selectors_in rest.now) work.old.tasks) }
{
    let element = layout.part_type(data_type, 0);
    let element_words = layout.words(element) as u16;
    leave_selectors(work, own, layout, element, rest);
    work.push(Task::Instruction(Instr::Index {
        length: length as u16,
        element_words,
    }));
}

/// The actuals that are left, where there are some.
fn leave_actuals<'a>(work: &mut WorkList<'a>, own: Scopes<'a>, actuals: &'a [Actual])
    requires { HasRoom work.old }
    ensures left { work.new ≡ before (Work.handing_left (own_in own.entry) (map actual_of actuals.now)) work.old }
    ensures few { length work.new.tasks ≤ length work.old.tasks + 1 }
{
    if !actuals.is_empty() {
        work.push(Task::Handing { own, actuals });
    }
}

/// The words that a call hands over: of each actual its value, or for a VAR parameter its address.
#[inline(never)]
pub fn open_handing<'a>(
    work: &mut WorkList<'a>,
    layout: &'a Layout,
    own: Scopes<'a>,
    actuals: &'a [Actual],
)
    requires room { HasRoom work.old }
    requires fits { CanBeOpened (block_in layout.now) (with_first (Work.Handing (own_in own) (map actual_of actuals.now)) work.old) }
    ensures { GivesWay (block_in layout.now) (with_first (Work.Handing (own_in own.entry) (map actual_of actuals.now)) work.old) work.new }
{
    let Some((actual, rest)) = actuals.split_first() else {
        return;
    };
    leave_actuals(work, own, rest);
    match actual {
        Actual::Value(expression) => open_value(work, layout, own, expression),
        Actual::Place(designator) => open_address(work, layout, own, designator),
    }
}
