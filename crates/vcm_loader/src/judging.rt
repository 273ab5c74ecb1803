//! Whether the operands of a statement are as it wants them, where it lies: in an image or in memory.

ghost use Rattle.std.specs.Prelude.{◌≡◌, ◌<◌, [], ◌∷◌, flat_map, length, slice_get, Some, OnOk, IfErr};
ghost use Rattle.vcm_spec.specs.Expression.{HasKind};
ghost use Rattle.vcm_code.specs.Deciding.{Tells};
ghost use Rattle.vcm_code.specs.Copies.{listed};
ghost use Rattle.vcm_code.specs.Valid.{IsLast};
ghost use Rattle.vcm_fields.specs.Fields.{in_field};
ghost use Rattle.vcm_code.specs.Checks.{index, target, indexes, assigned, ItemBelow, AllHold, wants, three, variable, place_checks, op_checks};
ghost use Rattle.vcm_loader.specs.Loading.{FirstFailedCheck};

use crate::walking::items_kind;
use vcm_code::{Branch, Op};
use vcm_fields::{BranchSlice, Field, ImageFault, ItemSlice, fields_of};
use vcm_items::postfix_kind;
use vcm_num::{Items, Kind};
use vcm_spec::{Item, Operand};

/// An expression that is judged, in an image or in memory.
pub(crate) trait Typed {
    ghost use Rattle.std.specs.Prelude.{List, IfSome, IfNone};
    ghost use Rattle.vcm_num.specs.declared.number.Kind.{Kind};
    ghost use Rattle.vcm_spec.specs.declared.expression.Item.{Item};
    ghost use Rattle.vcm_spec.specs.Expression.{HasKind};
    ghost use Rattle.vcm_code.specs.Deciding.{Tells};
    ghost use Rattle.vcm_code.specs.Checks.{ItemsBelow};

    /// Its postfix items.
    ghost items: { Self → List Item };

    /// Its kind, where the variables have these kinds; none where it is ill typed, or its stack passes 32.
    fn kind(&self, kinds: &[Kind]) -> Option<Kind>
        ensures some { IfSome result (λ k. HasKind kinds.now (items self.now) k) }
        ensures none { IfNone result ((k : Kind) → ¬ HasKind kinds.now (items self.now) k) };

    /// Whether all its variables are below a count.
    fn is_below(&self, count: usize) -> bool
        ensures { Tells result (ItemsBelow count (items self.now)) };
}

/// The branches of a SELECT that are judged, in an image or in memory.
pub(crate) trait Aimed {
    ghost use Rattle.std.specs.Prelude.{List, OnOk, IfErr};
    ghost use Rattle.vcm_code.specs.declared.branch.Branch.{Branch};
    ghost use Rattle.vcm_code.specs.Checks.{AllHold, targets};
    ghost use Rattle.vcm_loader.specs.Loading.{FirstFailedCheck};

    /// Its branches.
    ghost branches: { Self → List Branch };

    /// Their targets, in their order. There are so many statements.
    ///
    /// Errors: BadTarget.
    fn judge(&self, statements: usize) -> Result<(), ImageFault>
        ensures ok { OnOk result (AllHold (targets (branches self.now) statements)) }
        ensures err { IfErr result (λ e. FirstFailedCheck (targets (branches self.now) statements) e) };
}

// Whether the variable of an item, if it has one, is below a count.
fn item_below(item: Item, count: usize) -> bool
    ensures { Tells result (ItemBelow count item) }
{
    match item {
        Item::Push(Operand::Variable(v)) => usize::from(v) < count,
        Item::Push(Operand::Integer(_) | Operand::Thousandths(_) | Operand::Truth(_)) => true,
        Item::Apply(_) | Item::Combine(_) => true,
    }
}

impl<'a> Typed for ItemSlice<'a> {
    ghost items = { λ s. s };

    fn kind(&self, kinds: &[Kind]) -> Option<Kind> {
        items_kind(self, kinds)
    }

    fn is_below(&self, count: usize) -> bool {
        let mut rest = self.again();
        while let Some((item, after)) = rest.split_first() {
            if !item_below(item, count) {
                return false;
            }
            rest = after;
        }
        true
    }
}

impl Typed for Items<Item> {
    ghost items = { λ s. s };

    fn kind(&self, kinds: &[Kind]) -> Option<Kind> {
        postfix_kind(self.as_slice(), kinds)
    }

    fn is_below(&self, count: usize) -> bool {
        for item in self.as_slice() {
            if !item_below(*item, count) {
                return false;
            }
        }
        true
    }
}

// Whether two kinds are the same.
fn is_same_kind(a: Kind, b: Kind) -> bool
    ensures { Tells result (a ≡ b) }
{
    match (a, b) {
        (Kind::Int, Kind::Int) => true,
        (Kind::Real, Kind::Real) => true,
        (Kind::Bool, Kind::Bool) => true,
        _ => false,
    }
}

// Whether an expression has a kind.
fn has_kind<E: Typed>(items: &E, kinds: &[Kind], want: Kind) -> bool
    ensures { Tells result (HasKind kinds.now (E.items items.now) want) }
{
    match items.kind(kinds) {
        Some(kind) => is_same_kind(kind, want),
        None => false,
    }
}

// An expression of a kind: its indexes, then its types. One that has the kind has its variables, so the indexes are looked at only where it hasn't.
fn judge_items<E: Typed>(items: &E, kinds: &[Kind], want: Kind) -> Result<(), ImageFault>
    ensures ok { OnOk result (AllHold (wants kinds.now (E.items items.now) want)) }
    ensures err { IfErr result (λ e. FirstFailedCheck (wants kinds.now (E.items items.now) want) e) }
{
    if has_kind(items, kinds, want) {
        return Ok(());
    }
    if items.is_below(kinds.len()) {
        return Err(ImageFault::BadOperand);
    }
    Err(ImageFault::BadIndex)
}

// Three expressions of one kind.
#[tactic(auto, using(vcm_code::proofs::Checked::hold_append, crate::proofs::Judgements::first_here, crate::proofs::Judgements::first_later))]
fn judge_three<E: Typed>(x: &E, y: &E, z: &E, kinds: &[Kind], want: Kind) -> Result<(), ImageFault>
    ensures ok { OnOk result (AllHold (three kinds.now (E.items x.now) (E.items y.now) (E.items z.now) want)) }
    ensures err { IfErr result (λ e. FirstFailedCheck (three kinds.now (E.items x.now) (E.items y.now) (E.items z.now) want) e) }
{
    judge_items(x, kinds, want)?;
    judge_items(y, kinds, want)?;
    judge_items(z, kinds, want)?;
    Ok(())
}

// The number of a statement that an operand names.
fn judge_target(to: u32, statements: usize) -> Result<(), ImageFault>
    ensures ok { OnOk result (AllHold (target to statements ∷ [])) }
    ensures err { IfErr result (λ e. FirstFailedCheck (target to statements ∷ []) e) }
{
    if to as usize >= statements {
        return Err(ImageFault::BadTarget);
    }
    Ok(())
}

// The index of a variable, feature or frame, of which there are so many.
fn judge_index(i: u16, count: usize) -> Result<(), ImageFault>
    ensures ok { OnOk result (AllHold (index i count ∷ [])) }
    ensures err { IfErr result (λ e. FirstFailedCheck (index i count ∷ []) e) }
{
    if usize::from(i) >= count {
        return Err(ImageFault::BadIndex);
    }
    Ok(())
}

// A variable of a kind: its index, then its kind.
fn judge_variable(v: u16, kinds: &[Kind], want: Kind) -> Result<(), ImageFault>
    ensures ok { OnOk result (AllHold (variable kinds.now v want)) }
    ensures err { IfErr result (λ e. FirstFailedCheck (variable kinds.now v want) e) }
{
    if usize::from(v) >= kinds.len() {
        return Err(ImageFault::BadIndex);
    }
    if !is_same_kind(kinds[usize::from(v)], want) {
        return Err(ImageFault::BadOperand);
    }
    Ok(())
}

// An expression of the kind that a variable has.
#[tactic(auto, using(crate::proofs::Judgements::assigned_ok, crate::proofs::Judgements::assigned_err))]
fn judge_assigned<E: Typed>(v: u16, kind: Kind, e: &E, kinds: &[Kind]) -> Result<(), ImageFault>
    requires { slice_get kinds.now v ≡ Some kind }
    ensures ok { OnOk result (AllHold (indexes (E.items e.now) (length kinds.now) ∷ assigned kinds.now v (E.items e.now) ∷ [])) }
    ensures err { IfErr result (λ f. FirstFailedCheck (indexes (E.items e.now) (length kinds.now) ∷ assigned kinds.now v (E.items e.now) ∷ []) f) }
{
    judge_items(e, kinds, kind)?;
    Ok(())
}

// An ASSIGN: its variable, then an expression of that kind.
fn judge_assign<E: Typed>(v: u16, e: &E, kinds: &[Kind]) -> Result<(), ImageFault>
    ensures ok { OnOk result (AllHold (index v (length kinds.now) ∷ indexes (E.items e.now) (length kinds.now) ∷ assigned kinds.now v (E.items e.now) ∷ [])) }
    ensures err { IfErr result (λ f. FirstFailedCheck (index v (length kinds.now) ∷ indexes (E.items e.now) (length kinds.now) ∷ assigned kinds.now v (E.items e.now) ∷ []) f) }
{
    if usize::from(v) >= kinds.len() {
        return Err(ImageFault::BadIndex);
    }
    judge_assigned(v, kinds[usize::from(v)], e, kinds)?;
    Ok(())
}

impl<'a> Aimed for BranchSlice<'a> {
    ghost branches = { λ s. s };

    fn judge(&self, statements: usize) -> Result<(), ImageFault> {
        let mut rest = self.again();
        while let Some((branch, after)) = rest.split_first() {
            judge_target(branch.target, statements)?;
            rest = after;
        }
        Ok(())
    }
}

impl Aimed for Items<Branch> {
    ghost branches = { λ s. s };

    fn judge(&self, statements: usize) -> Result<(), ImageFault> {
        for branch in self.as_slice() {
            judge_target(branch.target, statements)?;
        }
        Ok(())
    }
}

// What stands in one place.
fn judge_field<E: Typed, T, B: Aimed>(
    field: &Field<'_, E, T, B>,
    kinds: &[Kind],
    features: usize,
    frames: usize,
    statements: usize,
) -> Result<(), ImageFault>
    ensures ok { OnOk result (AllHold (in_field E.items (λ t. []) B.branches (place_checks (record { kinds = kinds.now; features = features; frames = frames; statements = statements })) field.now)) }
    ensures err { IfErr result (λ e. FirstFailedCheck (in_field E.items (λ t. []) B.branches (place_checks (record { kinds = kinds.now; features = features; frames = frames; statements = statements })) field.now) e) }
{
    match field {
        Field::Variable(kind, v) => judge_variable(*v, kinds, *kind),
        Field::Feature(f) => judge_index(*f, features),
        Field::Frame(f) => judge_index(*f, frames),
        Field::Target(to) => judge_target(*to, statements),
        Field::Items(kind, e) => judge_items(*e, kinds, *kind),
        Field::Three(kind, x, y, z) => judge_three(*x, *y, *z, kinds, *kind),
        Field::Assigned(v, e) => judge_assign(*v, *e, kinds),
        Field::Branches(branches) => branches.judge(statements),
        Field::Nothing | Field::Pair(_) | Field::Turn(_) | Field::Quarters(_) => Ok(()),
        Field::Toward(_) | Field::Direction(_) | Field::Setting(_) => Ok(()),
        Field::Source(_) | Field::Part(_) | Field::Text(_) => Ok(()),
    }
}

// What stands in places, in their order.
fn judge_fields<E: Typed, T, B: Aimed>(
    fields: &[Field<'_, E, T, B>],
    kinds: &[Kind],
    features: usize,
    frames: usize,
    statements: usize,
) -> Result<(), ImageFault>
    ensures ok { OnOk result (AllHold (flat_map (in_field E.items (λ t. []) B.branches (place_checks (record { kinds = kinds.now; features = features; frames = frames; statements = statements }))) fields.now)) }
    ensures err { IfErr result (λ e. FirstFailedCheck (flat_map (in_field E.items (λ t. []) B.branches (place_checks (record { kinds = kinds.now; features = features; frames = frames; statements = statements }))) fields.now) e) }
{
    for field in fields {
        judge_field(field, kinds, features, frames, statements)?;
    }
    Ok(())
}

/// Whether a statement is ENDFIL.
pub(crate) fn is_end<E, T, B>(op: &Op<E, T, B>) -> bool
    ensures { Tells result (IsLast op.now) }
{
    matches!(op, Op::EndFil)
}

/// The operands of a statement, in their order: the first refusal, if there is one. There are so many features, frames and statements.
///
/// # Errors
///
/// BadIndex, BadTarget or BadOperand.
pub(crate) fn judge_operation<E: Typed, T, B: Aimed>(
    op: &Op<E, T, B>,
    kinds: &[Kind],
    features: usize,
    frames: usize,
    statements: usize,
) -> Result<(), ImageFault>
    ensures ok { OnOk result (AllHold (op_checks (record { kinds = kinds.now; features = features; frames = frames; statements = statements }) (listed E.items (λ t. []) B.branches op.now))) }
    ensures err { IfErr result (λ e. FirstFailedCheck (op_checks (record { kinds = kinds.now; features = features; frames = frames; statements = statements }) (listed E.items (λ t. []) B.branches op.now)) e) }
{
    judge_fields(&fields_of(op), kinds, features, frames, statements)
}
