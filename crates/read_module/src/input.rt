//! The module that a source's bytes describe.
ghost use Rattle.std.specs.Prelude.{◌≡◌, ◌≢◌, ◌≤◌, None, Some, Ok, Err, IfOk, IfErr, OnOk};
ghost use Rattle.edge.specs.Faults.{HasRisen};
ghost use Rattle.edge.specs.Source.{without_first, HasGivenUpTo};
ghost use Rattle.module_check.specs.declared.fault.CheckFault.{CheckFault as Fault};
ghost use Rattle.finite_module.specs.DerivedAction.{derived_module};
ghost use Rattle.module_check.specs.Acceptance.{refusal_of};
ghost use Rattle.read_module.specs.Input.{IsFileFrom, IsFileCauseFrom, IsModuleFrom, most_read};
ghost use Rattle.ext_report.specs.declared.failure.Failure as Failure;

use edge::{Source, read_through};
use ext_report::Failure;
use module_check::{CheckFault, Module, check};
use module_json::read;
use module_spec::{MAX_FILE_BYTES, Spec};
use std::alloc::Global;

/// How many bytes are read at most: one past the greatest size of a module file, so that a longer file is seen to be one.
#[tactic(auto, unfolding(crate::specs::Input::most_read))]
pub fn most_read() -> usize
    ensures { result ≡ most_read }
{
    MAX_FILE_BYTES + 1
}

/// The module file that a source has left.
fn read_file<S: Source>(alloc: Global, source: &mut S) -> Result<Spec, Failure>
    ensures file { IfOk result (λ spec. IsFileFrom (S.left source.old) (Ok spec)) }
    ensures cause { IfErr result (IsFileCauseFrom (S.left source.old)) }
    ensures reading { result ≡ Err Failure.Reading → HasRisen (S.faults source.old) (S.faults source.new) }
    ensures given { HasGivenUpTo most_read (S.left source.old) (S.left source.new) }
    ensures read { result ≢ Err Failure.Reading → result ≢ Err Failure.Memory →
        S.left source.new ≡ without_first (S.left source.old) most_read }
    ensures never_fall { S.faults source.old ≤ S.faults source.new }
    ensures no_fault { result ≢ Err Failure.Reading → S.faults source.new ≡ S.faults source.old }
{
    let bytes = read_through(alloc, source, most_read())?;
    Ok(read(alloc, bytes.as_slice())?)
}

/// The module that a file describes.
pub fn module_of(alloc: Global, spec: Spec) -> Result<Module, Failure>
    ensures module { IfOk result (λ m. m.plain ≡ derived_module spec) }
    ensures accepted { OnOk result (refusal_of spec ≡ None) }
    ensures cause { IfErr result (λ failure. failure ≢ Failure.Memory →
        (e : Fault) × (failure ≡ Failure.NotModule spec e) × (refusal_of spec ≡ Some e)) }
{
    match check(alloc, &spec) {
        Ok(module) => Ok(module),
        Err(CheckFault::Memory) => Err(Failure::Memory),
        Err(fault) => Err(Failure::NotModule(spec, fault)),
    }
}

/// The module that what a source has left describes.
pub fn read_module<S: Source>(alloc: Global, source: &mut S) -> Result<Module, Failure>
    ensures module { IfOk result (λ m. IsModuleFrom (S.left source.old) m.plain) }
    ensures cause { IfErr result (IsFileCauseFrom (S.left source.old)) }
    ensures reading { result ≡ Err Failure.Reading → HasRisen (S.faults source.old) (S.faults source.new) }
    ensures given { HasGivenUpTo most_read (S.left source.old) (S.left source.new) }
    ensures read { result ≢ Err Failure.Reading → result ≢ Err Failure.Memory →
        S.left source.new ≡ without_first (S.left source.old) most_read }
    ensures never_fall { S.faults source.old ≤ S.faults source.new }
    ensures no_fault { result ≢ Err Failure.Reading → S.faults source.new ≡ S.faults source.old }
{
    let spec = read_file(alloc, source)?;
    module_of(alloc, spec)
}
