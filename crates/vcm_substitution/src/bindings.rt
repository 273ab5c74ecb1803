//! What a body is expanded with, and substitution in expressions and names.

ghost use Rattle.std.specs.Prelude.{◌≡◌, ◌≤◌, ◌↔◌, [], ◌∷◌, List, length, IsTrue, true, false, IfOk, OnOk, IfErr};
ghost use Rattle.std.specs.Option.{option_copied};
ghost use Rattle.vcm_lines.specs.Fault.{NoMemoryOr, no_memory};
ghost use Rattle.vcm_lines.specs.declared.fault.FaultCode.{FaultCode};
ghost use Rattle.vcm_expr.specs.Source.{Source, is_small, IsSize};
ghost use Rattle.vcm_expr.specs.inner.Pieces.{with_piece};
ghost use Rattle.vcm_substitution.specs.Sizes.{is_small_option, IsTooDeep};
ghost use Rattle.vcm_substitution.specs.inner.Putting.{Puts, Big};
ghost use Rattle.vcm_substitution.specs.Substitution.{put, put_term, put_variable, put_target, put_name, put_argument, variable_in, variable_of, value_of, name_of, argument_for, is_meant};

use std::alloc::Global;
use std::marker::Model;
use vcm_expr::{Draft, Expr, Piece, Size, Term};
use vcm_forms::{Argument, Parameter, Target};
use vcm_items::{BoundedStack, Name};
use vcm_lines::SourceFault;

/// What a body is expanded with. Contracts see it as a `Scope`.
#[derive(Drop)]
pub struct Bindings<'a> {
    parameters: &'a [Parameter],
    arguments: &'a [Argument],
    expansion: u32,
}

impl<'a> Model for Bindings<'a> {
    ghost use Rattle.vcm_substitution.specs.Substitution.{Scope};
    ghost use Rattle.std.specs.Coded.{codes};
    ghost use Rattle.vcm_forms.specs.contracts.statement.Parameter as parameter;
    ghost use Rattle.vcm_forms.specs.contracts.statement.Argument as argument;

    ghost Value = { Scope };

    ghost coded = { Prim.hlevel (codes, parameter.the_row.coded, argument.the_row.coded) };

    ghost view = { λ b. record { parameters = b.parameters.now; arguments = b.arguments.now; expansion = b.expansion } };
}

// Whether a parameter is the quoted, or else the plain, one of this name.
fn is_meant(quoted: bool, name: &Name, parameter: &Parameter) -> bool
    ensures { result ≡ is_meant quoted name.now parameter.now }
{
    if quoted {
        parameter.quoted && parameter.name == *name
    } else {
        !parameter.quoted && parameter.name == *name
    }
}

// The argument for the quoted, or else the plain, parameter of this name.
fn argument_for<'a>(
    quoted: bool,
    name: &Name,
    parameters: &[Parameter],
    arguments: &'a [Argument],
) -> Option<&'a Argument>
    ensures { option_copied result ≡ argument_for quoted name.now parameters.now arguments.now }
{
    let mut parameters = parameters;
    let mut arguments = arguments;
    'found: while let Some((parameter, others)) = parameters.split_first() {
        let (argument, rest) = arguments.split_first()?;
        if is_meant(quoted, name, parameter) {
            return Some(argument);
        }
        parameters = others;
        arguments = rest;
    }
    None
}

// The expression that an argument is.
fn value_of(argument: Option<&Argument>) -> Option<&Expr>
    ensures { option_copied result ≡ value_of (option_copied argument.entry) }
{
    argument?.value.as_ref()
}

// The variable that an expression is, where it is one.
fn variable_in(e: &Expr) -> Option<Target>
    ensures { result ≡ variable_in e.now }
{
    match e.as_leaf() {
        Some(Term::Variable(name, expansion)) => Some(Target { name, expansion }),
        _ => None,
    }
}

/// The variable that an argument is, where it is one.
pub fn variable_of(value: Option<&Expr>) -> Option<Target>
    ensures { result ≡ variable_of (option_copied value.entry) }
{
    variable_in(value?)
}

// The name that an argument is.
fn name_of(argument: Option<&Argument>) -> Option<&Name>
    ensures { option_copied result ≡ name_of (option_copied argument.entry) }
{
    argument?.name.as_ref()
}

impl<'a> Bindings<'a> {
    /// The parameters of a macro, the arguments that stand for them, one by one, and the number of the expansion (0 outside macros).
    pub fn new(
        parameters: &'a [Parameter],
        arguments: &'a [Argument],
        expansion: u32,
    ) -> Bindings<'a>
        ensures { result ≡ record { parameters = parameters.now; arguments = arguments.now; expansion = expansion } }
    {
        Bindings {
            parameters,
            arguments,
            expansion,
        }
    }

    /// The number of the expansion.
    pub fn expansion(&self) -> u32
        ensures { result ≡ self.now.expansion }
    {
        self.expansion
    }

    /// Whether nothing stands for anything.
    pub fn is_empty(&self) -> bool
        ensures { IsTrue result ↔ (self.now.parameters ≡ []) }
    {
        self.parameters.is_empty()
    }

    // Appends the expression that stands for a variable.
    fn put_variable(&self, draft: &mut Draft, name: &Name) -> Result<Size, SourceFault>
        ensures ok { IfOk result (λ s. (draft.new ≡ put_variable self.now name.now ∷ draft.old) × IsSize s (put_variable self.now name.now)) }
        ensures fault { IfErr result (λ f. f ≡ no_memory) }
    {
        match value_of(argument_for(false, name, self.parameters, self.arguments)) {
            Some(value) => draft.append(value),
            None => draft.leaf(Term::Variable(name.copy(), self.expansion)),
        }
    }

    // Goes on by one part; `sizes` has the sizes of the expressions that are there.
    fn put_piece(
        &self,
        draft: &mut Draft,
        sizes: &mut BoundedStack<Size>,
        line: u32,
        piece: &Piece,
    ) -> Result<(), SourceFault>
        requires { (es : List Source) × Puts self.now es draft.old sizes.old × (length (with_piece piece.now es) ≤ 32) }
        ensures ok { OnOk result ((es : List Source) → Puts self.now es draft.old sizes.old → Puts self.now (with_piece piece.now es) draft.new sizes.new) }
        ensures fault { IfErr result (NoMemoryOr (λ f. (f ≡ record { code = FaultCode.TooDeep; line = line })
            × ((es : List Source) → Puts self.now es draft.old sizes.old → Big self.now (with_piece piece.now es)))) }
    {
        match piece {
            Piece::Number(literal) => {
                let size = draft.leaf(Term::Number(*literal))?;
                sizes.push(size);
            }
            Piece::Truth(truth) => {
                let size = draft.leaf(Term::Truth(*truth))?;
                sizes.push(size);
            }
            Piece::Variable(name, _) => {
                let size = self.put_variable(draft, name)?;
                sizes.push(size);
            }
            Piece::Front(prefix) => {
                let Some(a) = sizes.pop() else {
                    return Ok(());
                };
                let size = draft.prefixed(line, *prefix, a)?;
                sizes.push(size);
            }
            Piece::Between(op) => {
                let Some(b) = sizes.pop() else {
                    return Ok(());
                };
                let Some(a) = sizes.pop() else {
                    sizes.push(b);
                    return Ok(());
                };
                let size = draft.joined(line, *op, a, b)?;
                sizes.push(size);
            }
        }
        Ok(())
    }

    // What a leaf that stands alone says in the expansion.
    fn put_leaf(&self, alloc: Global, term: &Term) -> Result<Expr, SourceFault>
        ensures ok { IfOk result (λ s. s ≡ put_term self.now term.now) }
        ensures small { OnOk result (is_small (put_term self.now term.now) ≡ true) }
        ensures fault { IfErr result (λ f. f ≡ no_memory) }
    {
        match term {
            Term::Number(n) => Ok(Expr::leaf(Term::Number(*n))),
            Term::Truth(b) => Ok(Expr::leaf(Term::Truth(*b))),
            Term::Variable(name, _) => {
                match value_of(argument_for(false, name, self.parameters, self.arguments)) {
                    Some(value) => value.copy(alloc),
                    None => Ok(Expr::leaf(Term::Variable(name.copy(), self.expansion))),
                }
            }
        }
    }

    /// What an expression says in the expansion.
    pub(crate) fn put(&self, alloc: Global, line: u32, e: &Expr) -> Result<Expr, SourceFault>
        ensures ok { IfOk result (λ s. s ≡ put self.now e.now) }
        ensures small { OnOk result (is_small (put self.now e.now) ≡ true) }
        ensures fault { IfErr result (NoMemoryOr (IsTooDeep line (is_small (put self.now e.now)))) }
    {
        if let Some(term) = e.as_leaf() {
            let leaf = self.put_leaf(alloc, &term)?;
            return Ok(leaf);
        }
        let mut draft = Draft::new(alloc, e.pieces().len())?;
        let mut sizes = BoundedStack::new();
        for piece in e.pieces() {
            self.put_piece(&mut draft, &mut sizes, line, piece)?;
        }
        match sizes.pop() {
            Some(size) => Ok(draft.finish(size)),
            None => unreachable!(),
        }
    }

    /// The variable that is assigned in the expansion.
    pub(crate) fn put_target(&self, target: &Target) -> Target
        ensures { result ≡ put_target self.now target.now }
    {
        let found = argument_for(false, &target.name, self.parameters, self.arguments);
        match variable_of(value_of(found)) {
            Some(variable) => variable,
            None => Target {
                name: target.name.copy(),
                expansion: self.expansion,
            },
        }
    }

    /// The name that stands in the place of a name.
    pub(crate) fn put_name(&self, name: &Name) -> Name
        ensures { result ≡ put_name self.now name.now }
    {
        match name_of(argument_for(true, name, self.parameters, self.arguments)) {
            Some(other) => other.copy(),
            None => name.copy(),
        }
    }

    /// What an argument says in the expansion.
    ///
    /// # Errors
    ///
    /// An expression that becomes too deep or too large, told at `line`; want of memory.
    pub fn put_argument(
        &self,
        alloc: Global,
        line: u32,
        argument: &Argument,
    ) -> Result<Argument, SourceFault>
        ensures ok { IfOk result (λ a. a ≡ put_argument self.now argument.now) }
        ensures small { OnOk result (is_small_option (put_argument self.now argument.now).value ≡ true) }
        ensures fault { IfErr result (NoMemoryOr (IsTooDeep line (is_small_option (put_argument self.now argument.now).value))) }
    {
        let name = match &argument.name {
            None => None,
            Some(name) => Some(self.put_name(name)),
        };
        match &argument.value {
            None => Ok(Argument { name, value: None }),
            Some(value) => {
                let value = self.put(alloc, line, value)?;
                Ok(Argument {
                    name,
                    value: Some(value),
                })
            }
        }
    }
}
