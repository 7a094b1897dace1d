// The operators of assignments, in place.

ghost use Rattle.std.specs.Prelude.{◌≡◌, ◌≢◌, ◌<◌, IfErr, OnOk, OnErr};
ghost use Rattle.gn_values.specs.Val.{depth_of};
ghost use Rattle.gn_values.specs.Limits.{max_depth};
ghost use Rattle.gn_values.specs.Operators.{sum_of};
ghost use Rattle.gn_values.specs.Assigning.{combined, put_back, element_value, element_assigned, is_list, grows_too_deep};
ghost use Rattle.gn_values.specs.View.{val_of};

use crate::error::{ElementError, ValueError};
use crate::limits::MAX_DEPTH;
use crate::operators::subtract;
use crate::value::Value;
use gn_tree::AssignOp;
use std::alloc::Global;

impl Value {
    /// Adds a value to this one in place, as `+` does: the items of a list are moved behind those
    /// that it has. After a refusal it is as before, and the right value is dropped.
    #[tactic(auto, unfolding(crate::specs::Operators::sum_of))]
    fn add_moved(&mut self, alloc: Global, right: Value) -> Result<(), ValueError>
        ensures ok { OnOk result (sum_of (val_of self.old) (val_of right) ≡ Ok (val_of self.new)) }
        ensures refused { IfErr result
            (λ e. e ≢ ValueError.Memory → sum_of (val_of self.old) (val_of right) ≡ Err e) }
        ensures err { OnErr result (val_of self.new ≡ val_of self.old) }
    {
        match right {
            Value::List(more) => match self {
                Value::List(items) => items.append_moved(more),
                _ => Err(ValueError::BadTypes),
            },
            other => self.add_assign(alloc, &other),
        }
    }

    /// Assigns to this value in place: `=` puts the right value in its place, `+=` adds to it and
    /// `-=` subtracts from it, with the refusals of `+` and `-`. After a refusal it is as before,
    /// and the right value is dropped.
    ///
    /// `+=` neither walks over nor copies what the value has, where nobody else has the items of a
    /// list. The items of a right list are moved where nobody else has them, and the bytes of a right
    /// string are copied. `-=` costs what `subtract` does.
    pub fn combine(&mut self, alloc: Global, op: AssignOp, right: Value) -> Result<(), ValueError>
        ensures ok { OnOk result
            (combined op (val_of self.old) (val_of right) ≡ Ok (val_of self.new)) }
        ensures refused { IfErr result
            (λ e. e ≢ ValueError.Memory
            → combined op (val_of self.old) (val_of right) ≡ Err e) }
        ensures err { OnErr result (val_of self.new ≡ val_of self.old) }
    {
        match op {
            AssignOp::Set => {
                *self = right;
                Ok(())
            }
            AssignOp::Add => self.add_moved(alloc, right),
            AssignOp::Subtract => {
                *self = subtract(alloc, self, &right)?;
                Ok(())
            }
        }
    }

    /// Whether the value is a list.
    fn is_list(&self) -> bool
        ensures { result ≡ is_list (val_of self.now) }
    {
        matches!(self, Value::List(_))
    }

    /// Whether this value, which is an element, is too deep for one after an assignment.
    fn grows_too_deep(&self, op: AssignOp, right: &Value) -> bool
        ensures { result ≡ grows_too_deep op (val_of self.now) (val_of right.now) }
    {
        match op {
            AssignOp::Set => right.depth() >= MAX_DEPTH,
            AssignOp::Add => self.is_list() && right.is_list() && right.depth() >= MAX_DEPTH,
            AssignOp::Subtract => false,
        }
    }

    /// Assigns to an element of a list or a scope in place. `Operator(TooLong)` comes also where
    /// the element would be too deep for what holds it. After a refusal it is as before, and the
    /// right value is dropped.
    pub(crate) fn combine_element(
        &mut self,
        alloc: Global,
        op: AssignOp,
        right: Value,
    ) -> Result<(), ElementError>
        requires { depth_of (val_of self.old) < max_depth }
        ensures ok { OnOk result
            (put_back element_value (combined op (val_of self.old) (val_of right))
            ≡ Ok (val_of self.new)) }
        ensures refused { IfErr result
            (λ e. e ≢ ElementError.Memory
            → put_back element_value (combined op (val_of self.old) (val_of right)) ≡ Err e) }
        ensures err { OnErr result (val_of self.new ≡ val_of self.old) }
    {
        // An item that was added in place couldn't be taken back, so the depth is looked at first.
        if self.grows_too_deep(op, &right) {
            return Err(ElementError::Operator(ValueError::TooLong));
        }
        match self.combine(alloc, op, right) {
            Ok(()) => Ok(()),
            Err(error) => Err(ElementError::of_operator(error)),
        }
    }

    /// `base[at] op= value` and `base.at op= value`, in place. An item of a list is found by an
    /// integer, counted from 0, and an entry of a scope by a string. `=` adds an absent entry.
    ///
    /// `Subscript` has the fault of finding the element: `BadTypes` for a base or a subscript of
    /// another type, `BadIndex` for a number that the list has no item of, and `Undefined` for
    /// `+=` and `-=` on an absent entry. `Operator` has the fault of the operator on the element,
    /// and `TooLong` where the list or the scope would nest too deep. After a refusal this value
    /// is as before, and the right value is dropped.
    ///
    /// An item is found at once, and an entry with logarithmically many looks. Beside what
    /// `combine` costs on the element there is a look at each element only where the deepest one
    /// gets less deep, a move of the entries behind one that is added, and copies of the elements
    /// where others have them too.
    #[tactic(auto, unfolding(crate::specs::Assigning::element_assigned))]
    pub fn assign_element(
        &mut self,
        alloc: Global,
        at: &Value,
        op: AssignOp,
        value: Value,
    ) -> Result<(), ElementError>
        ensures ok { OnOk result
            (element_assigned (val_of self.old) (val_of at.now) op (val_of value)
            ≡ Ok (val_of self.new)) }
        ensures refused { IfErr result
            (λ e. e ≢ ElementError.Memory
            → element_assigned (val_of self.old) (val_of at.now) op (val_of value) ≡ Err e) }
        ensures err { OnErr result (val_of self.new ≡ val_of self.old) }
    {
        match self {
            Value::List(items) => match at {
                Value::Int(index) => items.assign_item(alloc, *index, op, value),
                _ => Err(ElementError::Subscript(ValueError::BadTypes)),
            },
            Value::Scope(entries) => match at {
                Value::Str(name) => entries.assign_entry(alloc, name, op, value),
                _ => Err(ElementError::Subscript(ValueError::BadTypes)),
            },
            _ => Err(ElementError::Subscript(ValueError::BadTypes)),
        }
    }
}
