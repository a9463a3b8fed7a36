//! Rank intervals and their ends.

ghost use Rattle.std.specs.Prelude.{◌≡◌, ◌≢◌, ◌<◌, ◌^◌, ℕ, Bool, List, Ok, Err, true, false, option_and_then, IfOk, IfErr};
ghost use Rattle.rational_laws.specs.Fraction.{Fraction};
ghost use Rattle.loss_model.specs.declared.interval.Bound.TheVariants.{Finite, Infinite};
ghost use Rattle.loss_model.specs.declared.interval.Beyond.TheVariants.{Outside, Ray};
ghost use Rattle.loss_model.specs.declared.interval.End.{End as end_type};
ghost use Rattle.loss_model.specs.declared.interval.IntervalProof.{IntervalProof as interval_type};
ghost use Rattle.serde_json.specs.View.{view, members_view};
ghost use Rattle.cert_text.specs.Kept.{IsKeptEnd, IsKeptInterval, is_finite, is_outside};
ghost use Rattle.cert_text.specs.Certificates.{end_kind, finite_members, infinite_members, end_members, end_of, interval_members, projected_members, interval};
ghost use Rattle.cert_text.specs.Keys.{finite_end, infinite_end, interval_with};
ghost use Rattle.cert_text.specs.Trees.{end_tree, interval_tree};

use crate::fault::CertFault;
use crate::keys::{field, members, no_more_keys};
use crate::layout::Width;
use crate::numbers::ratios;
use crate::parts::{FromJson, Name, ToJson, put};
use crate::path::wrong_kind;
use crate::vertex::{Sides, Signs, vertex};
use frac_core::{List, OutOfMemory};
use loss_model::{Beyond, Bound, End, IntervalProof};
use ratio::Ratio;
use serde_json::{Map, Value};
use std::alloc::{AllocError, Global};
use std::collections::btree_map::Iter;

// Whether an end is finite.
#[derive(Clone, Copy)]
struct EndKind {
    is_finite: bool,
}

impl FromJson for EndKind {
    ghost Content = { Bool };

    ghost content = { λ kind. kind.is_finite };

    ghost reader = { λ _. end_kind };

    #[tactic(auto, unfolding(crate::specs::Certificates::end_kind))]
    fn from_json(alloc: Global, _width: Width, value: &Value) -> Result<EndKind, CertFault> {
        let Some(name) = value.as_str() else {
            return Err(wrong_kind(alloc));
        };
        if name == "finite" {
            return Ok(EndKind { is_finite: true });
        }
        if name == "infinite" {
            return Ok(EndKind { is_finite: false });
        }
        Err(wrong_kind(alloc))
    }
}

// What both kinds of end have.
#[derive(Drop)]
struct Solution {
    coef: List<Ratio>,
    inside: List<Ratio>,
}

// The keys of a finite end behind its kind.
#[derive(Drop)]
struct FiniteKeys {
    outside: List<Ratio>,
    sides: Sides,
    value: Ratio,
}

#[tactic(auto, unfolding(crate::specs::Certificates::finite_members))]
fn finite_keys(
    alloc: Global,
    width: Width,
    rest: &mut Iter<'_, String, Value>,
) -> Result<FiniteKeys, CertFault>
    ensures ok { IfOk result (λ k. (coef inside : List Fraction) → finite_members width coef inside (members_view rest.old) ≡ Ok (finite_end coef inside k)) }
    ensures err { IfErr result (λ e. e ≢ CertFault.OutOfMemory → (coef inside : List Fraction) → finite_members width coef inside (members_view rest.old) ≡ Err e) }
{
    let outside = ratios(alloc, width, "outside", rest)?;
    let sides = field(alloc, width, "sides", rest)?;
    let value = field(alloc, width, "value", rest)?;
    no_more_keys(alloc, rest)?;
    Ok(FiniteKeys {
        outside,
        sides,
        value,
    })
}

impl FiniteKeys {
    // The end with this solution.
    fn end(self, alloc: Global, solution: Solution) -> Result<End, OutOfMemory>
        ensures end { IfOk result (λ e. e ≡ finite_end solution.coef solution.inside self) }
        ensures kept { IfOk result IsKeptEnd }
    {
        let vertex = vertex(alloc, self.sides, solution.coef)?;
        Ok(End {
            bound: Bound::Finite(self.value),
            vertex,
            inside: solution.inside,
            beyond: Beyond::Outside(self.outside),
        })
    }
}

// The keys of an infinite end behind its kind.
#[derive(Drop)]
struct InfiniteKeys {
    ray: List<Ratio>,
    sides: Sides,
}

#[tactic(auto, unfolding(crate::specs::Certificates::infinite_members))]
fn infinite_keys(
    alloc: Global,
    width: Width,
    rest: &mut Iter<'_, String, Value>,
) -> Result<InfiniteKeys, CertFault>
    ensures ok { IfOk result (λ k. (coef inside : List Fraction) → infinite_members width coef inside (members_view rest.old) ≡ Ok (infinite_end coef inside k)) }
    ensures err { IfErr result (λ e. e ≢ CertFault.OutOfMemory → (coef inside : List Fraction) → infinite_members width coef inside (members_view rest.old) ≡ Err e) }
{
    let ray = ratios(alloc, width, "ray", rest)?;
    let sides = field(alloc, width, "sides", rest)?;
    no_more_keys(alloc, rest)?;
    Ok(InfiniteKeys { ray, sides })
}

impl InfiniteKeys {
    // The end with this solution.
    fn end(self, alloc: Global, solution: Solution) -> Result<End, OutOfMemory>
        ensures end { IfOk result (λ e. e ≡ infinite_end solution.coef solution.inside self) }
        ensures kept { IfOk result IsKeptEnd }
    {
        let vertex = vertex(alloc, self.sides, solution.coef)?;
        Ok(End {
            bound: Bound::Infinite,
            vertex,
            inside: solution.inside,
            beyond: Beyond::Ray(self.ray),
        })
    }
}

fn finite_of(
    alloc: Global,
    width: Width,
    solution: Solution,
    rest: &mut Iter<'_, String, Value>,
) -> Result<End, CertFault>
    ensures ok { let coef = solution.coef in let inside = solution.inside in
        IfOk result (λ e. finite_members width coef inside (members_view rest.old) ≡ Ok e) }
    ensures kept { IfOk result IsKeptEnd }
    ensures err { let coef = solution.coef in let inside = solution.inside in
        IfErr result (λ e. e ≢ CertFault.OutOfMemory → finite_members width coef inside (members_view rest.old) ≡ Err e) }
{
    match finite_keys(alloc, width, rest) {
        Ok(keys) => Ok(keys.end(alloc, solution)?),
        Err(fault) => {
            drop(solution);
            Err(fault)
        }
    }
}

fn infinite_of(
    alloc: Global,
    width: Width,
    solution: Solution,
    rest: &mut Iter<'_, String, Value>,
) -> Result<End, CertFault>
    ensures ok { let coef = solution.coef in let inside = solution.inside in
        IfOk result (λ e. infinite_members width coef inside (members_view rest.old) ≡ Ok e) }
    ensures kept { IfOk result IsKeptEnd }
    ensures err { let coef = solution.coef in let inside = solution.inside in
        IfErr result (λ e. e ≢ CertFault.OutOfMemory → infinite_members width coef inside (members_view rest.old) ≡ Err e) }
{
    match infinite_keys(alloc, width, rest) {
        Ok(keys) => Ok(keys.end(alloc, solution)?),
        Err(fault) => {
            drop(solution);
            Err(fault)
        }
    }
}

#[tactic(auto, unfolding(crate::specs::Certificates::end_members))]
fn end_of(alloc: Global, width: Width, rest: &mut Iter<'_, String, Value>) -> Result<End, CertFault>
    ensures ok { IfOk result (λ e. end_members width (members_view rest.old) ≡ Ok e) }
    ensures kept { IfOk result IsKeptEnd }
    ensures err { IfErr result (λ e. e ≢ CertFault.OutOfMemory → end_members width (members_view rest.old) ≡ Err e) }
{
    let coef = ratios(alloc, width, "coef", rest)?;
    let inside = ratios(alloc, width, "inside", rest)?;
    let kind: EndKind = field(alloc, width, "kind", rest)?;
    let solution = Solution { coef, inside };
    if kind.is_finite {
        return finite_of(alloc, width, solution, rest);
    }
    infinite_of(alloc, width, solution, rest)
}

impl FromJson for End {
    ghost Content = { end_type };

    ghost content = { λ e. e };

    ghost reader = { Rattle.cert_text.specs.Certificates.end_of };

    ghost IsKept = { IsKeptEnd };

    #[tactic(auto, unfolding(crate::specs::Certificates::end_of))]
    fn from_json(alloc: Global, width: Width, value: &Value) -> Result<End, CertFault> {
        let found = members(alloc, value)?;
        end_of(alloc, width, &mut found.iter())
    }
}

// An interval without the factors that project its column.
#[derive(Drop)]
struct IntervalHead {
    column: u32,
    crit: Ratio,
    low: End,
    high: End,
}

// The keys of an interval behind its ends.
#[derive(Drop)]
struct ProjectionKeys {
    projection: List<Ratio>,
    tau: Ratio,
}

#[tactic(auto, unfolding(crate::specs::Certificates::projected_members))]
fn projection_keys(
    alloc: Global,
    width: Width,
    rest: &mut Iter<'_, String, Value>,
) -> Result<ProjectionKeys, CertFault>
    ensures ok { IfOk result (λ k. (column : ℕ) (crit : Fraction) (high low : end_type) → projected_members width column crit high low (members_view rest.old) ≡ Ok (interval_with column crit high low k)) }
    ensures err { IfErr result (λ e. e ≢ CertFault.OutOfMemory → (column : ℕ) (crit : Fraction) (high low : end_type) → projected_members width column crit high low (members_view rest.old) ≡ Err e) }
{
    let projection = ratios(alloc, width, "projection", rest)?;
    let tau = field(alloc, width, "tau", rest)?;
    no_more_keys(alloc, rest)?;
    Ok(ProjectionKeys { projection, tau })
}

fn projected(
    alloc: Global,
    width: Width,
    t: IntervalHead,
    rest: &mut Iter<'_, String, Value>,
) -> Result<IntervalProof, CertFault>
    requires kept { IsKeptEnd t.low × IsKeptEnd t.high }
    ensures ok { let read = projected_members width t.column t.crit t.high t.low in
        IfOk result (λ p. read (members_view rest.old) ≡ Ok p) }
    ensures kept { IfOk result IsKeptInterval }
    ensures err { let read = projected_members width t.column t.crit t.high t.low in
        IfErr result (λ e. e ≢ CertFault.OutOfMemory → read (members_view rest.old) ≡ Err e) }
{
    match projection_keys(alloc, width, rest) {
        Ok(keys) => Ok(IntervalProof {
            column: t.column,
            tau: keys.tau,
            crit: t.crit,
            low: t.low,
            high: t.high,
            projection: keys.projection,
        }),
        Err(fault) => {
            drop(t);
            Err(fault)
        }
    }
}

#[tactic(auto, unfolding(crate::specs::Certificates::interval_members))]
fn interval_of(
    alloc: Global,
    width: Width,
    rest: &mut Iter<'_, String, Value>,
) -> Result<IntervalProof, CertFault>
    ensures ok { IfOk result (λ t. interval_members width (members_view rest.old) ≡ Ok t) }
    ensures kept { IfOk result IsKeptInterval }
    ensures err { IfErr result (λ e. e ≢ CertFault.OutOfMemory → interval_members width (members_view rest.old) ≡ Err e) }
{
    let column = field(alloc, width, "column", rest)?;
    let crit = field(alloc, width, "crit", rest)?;
    let high = field(alloc, width, "high", rest)?;
    let low = field(alloc, width, "low", rest)?;
    let tested = IntervalHead {
        column,
        crit,
        low,
        high,
    };
    projected(alloc, width, tested, rest)
}

impl FromJson for IntervalProof {
    ghost Content = { interval_type };

    ghost content = { λ t. t };

    ghost reader = { interval };

    ghost IsKept = { IsKeptInterval };

    #[tactic(auto, unfolding(crate::specs::Certificates::interval))]
    fn from_json(alloc: Global, width: Width, value: &Value) -> Result<IntervalProof, CertFault> {
        let found = members(alloc, value)?;
        interval_of(alloc, width, &mut found.iter())
    }
}

#[tactic(auto, unfolding(crate::specs::Trees::end_tree))]
fn finite_to_json(
    alloc: Global,
    end: &End,
    outside: &List<Ratio>,
    value: &Ratio,
) -> Result<Value, AllocError>
    requires bound { end.now.bound ≡ Finite value.now }
    requires beyond { end.now.beyond ≡ Outside outside.now }
    ensures { IfOk result (λ v. view v ≡ end_tree end.now) }
{
    let mut object = Map::new(alloc);
    put(alloc, &mut object, "coef", &end.vertex.coef)?;
    put(alloc, &mut object, "inside", &end.inside)?;
    put(alloc, &mut object, "kind", &Name("finite"))?;
    put(alloc, &mut object, "outside", outside)?;
    put(
        alloc,
        &mut object,
        "sides",
        &Signs(end.vertex.sides.as_slice()),
    )?;
    put(alloc, &mut object, "value", value)?;
    Ok(Value::Object(object))
}

#[tactic(auto, unfolding(crate::specs::Trees::end_tree))]
fn infinite_to_json(alloc: Global, end: &End, ray: &List<Ratio>) -> Result<Value, AllocError>
    requires bound { end.now.bound ≡ Infinite }
    requires beyond { end.now.beyond ≡ Ray ray.now }
    ensures { IfOk result (λ v. view v ≡ end_tree end.now) }
{
    let mut object = Map::new(alloc);
    put(alloc, &mut object, "coef", &end.vertex.coef)?;
    put(alloc, &mut object, "inside", &end.inside)?;
    put(alloc, &mut object, "kind", &Name("infinite"))?;
    put(alloc, &mut object, "ray", ray)?;
    put(
        alloc,
        &mut object,
        "sides",
        &Signs(end.vertex.sides.as_slice()),
    )?;
    Ok(Value::Object(object))
}

impl ToJson for End {
    ghost tree = { end_tree };

    ghost IsKept = { IsKeptEnd };

    fn to_json(&self, alloc: Global) -> Result<Value, AllocError> {
        match (&self.bound, &self.beyond) {
            (Bound::Finite(value), Beyond::Outside(outside)) => finite_to_json(
                alloc, self, outside, value,
            ),
            (Bound::Infinite, Beyond::Ray(ray)) => infinite_to_json(alloc, self, ray),
            (Bound::Finite(_), Beyond::Ray(_)) => unreachable!(),
            (Bound::Infinite, Beyond::Outside(_)) => unreachable!(),
        }
    }
}

impl ToJson for IntervalProof {
    ghost tree = { interval_tree };

    ghost IsKept = { IsKeptInterval };

    #[tactic(auto, unfolding(crate::specs::Trees::interval_tree))]
    fn to_json(&self, alloc: Global) -> Result<Value, AllocError> {
        let mut object = Map::new(alloc);
        put(alloc, &mut object, "column", &self.column)?;
        put(alloc, &mut object, "crit", &self.crit)?;
        put(alloc, &mut object, "high", &self.high)?;
        put(alloc, &mut object, "low", &self.low)?;
        put(alloc, &mut object, "projection", &self.projection)?;
        put(alloc, &mut object, "tau", &self.tau)?;
        Ok(Value::Object(object))
    }
}
