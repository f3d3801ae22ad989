//! The text of a task: a module is resolved, by the caller alone or by workers, over its save file if the words say so,
//! and what is made of it is told: a table, or the images of generators alone. Workers may report how far they are.
//! Or the save file is all that is used.
ghost use Rattle.std.specs.Prelude.{◌≡◌, ◌≢◌, ◌≤◌, ◌⊎◌, true, false, None, Err, IfErr, OnErr};
ghost use Rattle.bidegree.specs.declared.range.TheConstants.{MAX_S, MAX_T};
ghost use Rattle.board_core.specs.declared.event.Cause as Cause;
ghost use Rattle.resolution_step.specs.Alone.{AreApart, IsUntouched, HasResolved};
ghost use Rattle.square.specs.Keeping.{IsKeeperOf};
ghost use Rattle.square.specs.Tables.{plain_rows, IsThrough, cut};
ghost use Rattle.ext_run.specs.declared.plan.Form as Form;
ghost use Rattle.ext_run.specs.declared.task.Task.TheVariants.{Resolution as ToResolve};
ghost use Rattle.ext_run.specs.Devices.{device_of, store_of};
ghost use Rattle.ext_run.specs.Plan.{keeping, live_where};
ghost use Rattle.square_worker.specs.Worked.{HasResolvedBy};
ghost use Rattle.ext_run.specs.Courses.{HasText, by_workers, shape_of, HasCourse, HasKeptCourse, HasTaskCourse};
ghost use Rattle.ext_run.specs.Live.{live_in, HasHeard};
ghost use Rattle.ext_run.specs.Forms.{IsResolved, IsInForm, IsRefusedIn};
ghost use Rattle.ext_words.specs.Words.{IsWithin};
ghost use Rattle.ext_run.specs.Task.{IsTaskWithin};
ghost use Rattle.ext_run.specs.Work.{HasAnswer, answer_of, HasContinued, HasUsed, HasWorked};
ghost use Rattle.ext_report.specs.declared.failure.Failure.TheVariants.{Memory as WantOfMemory, Saving};

use crate::from_images::{sheet_alone, sheet_by, sheet_live};
use crate::migrating::migrated;
use crate::plan::{Form, Sheet};
use crate::products_over_images::{products_alone, products_by};
use crate::sheets::sheet_text;
use crate::sought::sought_text;
use crate::sought_over_images::{sought_alone, sought_by};
use crate::task::{Resolution, Task};
use crate::verifying::verified;
use bidegree::{Range, Shape};
use board_core::Cause;
use chain_map::{Held, Source};
use edge::{Disk, Failed, Sink};
use ext_report::Failure;
use ext_table::products_in;
use ext_words::Common;
use finite_module::Module;
use live_worker::resolve_live;
use memory::Memory;
use module_check::{accepted_is_module, modules_are_graded_modules};
use resolution_existence::canonical_table_exists;
use resolution_laws::canonical_table_is_minimal_resolution;
use resolution_step::resolve_alone;
use run_file::RunFile;
use save_file::resume;
use square::{Keep, KeepFault, NoKeep, Table};
use square_worker::{Gate, resolve_with};
use std::alloc::Global;
use std::mem::forget;
use std::sync::Wait;
use std::thread::Threads;
use std::time::Clock;

/// The text of a task, made by one worker, whatever the task says. The disk is handed back.
pub(crate) fn text_alone<D: Disk>(
    alloc: Global,
    task: Task,
    disk: D,
) -> (Result<Vec<u8>, Failure>, D)
    requires { IsTaskWithin task }
    ensures { HasWorked (store_of D.now D.moment D.images D.images_at D.since D.faults) task result.0 disk result.1 }
{
    match task {
        Task::Text(text) => (Ok(text), disk),
        Task::Resolution(resolution) if resolution.common.save => {
            saved_alone(alloc, resolution, disk)
        }
        Task::Resolution(resolution) => (unsaved_alone(alloc, resolution), disk),
        Task::Migration(module) => migrated(alloc, module, disk),
        Task::Verification(module, range) => verified(alloc, module, range, disk),
    }
}

/// The text of a task, made by as many workers as it says, which report on `err` how far they are if it says so. Where there is one
/// worker and no report, or nothing to resolve, nothing waits. The last of what it gives says whether `err` failed; then nothing was
/// written to it since.
#[tactic(auto, using(crate::proofs::Courses::course_saved, crate::proofs::Courses::course_unsaved, crate::proofs::Courses::course_alone))]
pub(crate) fn text_by_workers<
    W: Threads + Wait + Clock + Sync,
    E: Sink + Send,
    D: Disk + Send,
    G: Gate + Sync,
>(
    wait: &W,
    alloc: Global,
    task: Task,
    err: &mut E,
    disk: D,
    gate: &G,
) -> (Result<Vec<u8>, Failure>, D, Result<(), Failed>)
    requires { IsTaskWithin task }
    ensures worked { HasWorked (store_of D.now D.moment D.images D.images_at D.since D.faults) task
        result.0 disk result.1 }
    ensures course { HasTaskCourse (store_of D.now D.moment D.images D.images_at D.since D.faults) task result.0 disk
        result.1 }
    ensures heard { HasHeard (device_of E.written E.faults) (live_in task) result.0 result.2 err.old err.new }
{
    match task {
        Task::Resolution(resolution) if is_by_workers(resolution.common) => {
            if resolution.common.save {
                saved_by_workers(wait, alloc, resolution, err, disk, gate)
            } else {
                let (text, heard) = unsaved_by_workers(wait, alloc, resolution, err, gate);
                (text, disk, heard)
            }
        }
        task => {
            let (text, disk) = text_alone(alloc, task, disk);
            (text, disk, Ok(()))
        }
    }
}

/// Whether workers make the squares, and not the caller. One that reports has a watcher beside it.
fn is_by_workers(common: Common) -> bool
    ensures is { result ≡ by_workers common }
    ensures none { result ≡ false → live_where common.live common.range ≡ None }
{
    common.live || common.workers > 1
}

/// The text of a resolution, made on the caller's thread. Nothing is kept. Each text speaks of generators and their
/// images alone, and nothing else is made of the module.
fn unsaved_alone(alloc: Global, resolution: Resolution) -> Result<Vec<u8>, Failure>
    requires { IsWithin resolution.common }
    ensures told { HasAnswer result →
        IsInForm resolution.form resolution.common.range resolution.resolved.plain (answer_of result) }
    ensures why { IfErr result (λ e. (e ≡ WantOfMemory)
        ⊎ IsRefusedIn resolution.form resolution.common.range resolution.resolved.plain (Err e)) }
{
    let Resolution {
        resolved,
        form,
        common,
    } = resolution;
    let range = common.range;
    match form {
        Form::Squares(sheet, shape) => Ok(sheet_alone(alloc, resolved, sheet, range, shape)?),
        Form::Products(layout, by, shape) => {
            products_alone(alloc, resolved, layout, range, shape, by.as_slice())
        }
        Form::Sought(sought) => sought_alone(alloc, resolved, range, sought),
    }
}

/// The text of a resolution, made by as many workers as it says. Nothing is kept. A table is made where what is told of classes
/// has to be reported, and else the images of generators alone.
fn unsaved_by_workers<W: Threads + Wait + Clock + Sync, E: Sink + Send, G: Gate + Sync>(
    wait: &W,
    alloc: Global,
    resolution: Resolution,
    err: &mut E,
    gate: &G,
) -> (Result<Vec<u8>, Failure>, Result<(), Failed>)
    requires { IsWithin resolution.common }
    ensures told { HasAnswer result.0 →
        IsInForm resolution.form resolution.common.range resolution.resolved.plain (answer_of result.0) }
    ensures why { IfErr result.0 (λ e. (e ≡ WantOfMemory)
        ⊎ IsRefusedIn resolution.form resolution.common.range resolution.resolved.plain (Err e)) }
    ensures course { HasCourse resolution.common.workers resolution.common.range (shape_of resolution.form)
        resolution.resolved.plain (HasText result.0) }
    ensures heard { HasHeard (device_of E.written E.faults) (live_where resolution.common.live resolution.common.range)
        result.0 result.1 err.old err.new }
{
    let Resolution {
        resolved,
        form,
        common,
    } = resolution;
    let range = common.range;
    match (form, common.live) {
        (Form::Squares(sheet, shape), true) => {
            live_sheet(wait, alloc, resolved, sheet, shape, common, err, gate)
        }
        (Form::Squares(sheet, shape), false) => {
            let workers = common.workers as usize;
            match sheet_by(wait, alloc, workers, resolved, sheet, range, shape, gate) {
                Ok(text) => (Ok(text), Ok(())),
                Err(Memory) => (Err(Failure::Memory), Ok(())),
            }
        }
        (Form::Products(layout, by, shape), false) => {
            let (workers, by) = (common.workers as usize, by.as_slice());
            let text = products_by(
                wait, alloc, workers, resolved, layout, range, shape, by, gate,
            );
            (text, Ok(()))
        }
        (Form::Sought(sought), false) => {
            let workers = common.workers as usize;
            let text = sought_by(wait, alloc, workers, resolved, range, sought, gate);
            (text, Ok(()))
        }
        (form, _) => tabled_by_workers(wait, alloc, resolved, form, common, err, gate),
    }
}

/// The text of a sheet on the squares of a resolution, of which as many workers as are asked for make the images, and report
/// meanwhile. Nothing is kept.
fn live_sheet<W: Threads + Wait + Clock + Sync, E: Sink + Send, G: Gate + Sync>(
    wait: &W,
    alloc: Global,
    resolved: Module,
    sheet: Sheet,
    shape: Shape,
    common: Common,
    err: &mut E,
    gate: &G,
) -> (Result<Vec<u8>, Failure>, Result<(), Failed>)
    requires within { IsWithin common }
    requires live { common.live ≡ true }
    ensures told { HasAnswer result.0 →
        IsInForm (Form.Squares sheet shape) common.range resolved.plain (answer_of result.0) }
    ensures why { IfErr result.0 (λ e. e ≡ WantOfMemory) }
    ensures course { HasCourse common.workers common.range shape resolved.plain (HasText result.0) }
    ensures heard { HasHeard (device_of E.written E.faults) (live_where common.live common.range) result.0 result.1
        err.old err.new }
{
    let workers = common.workers as usize;
    let (made, heard) = sheet_live(
        wait,
        alloc,
        workers,
        resolved,
        sheet,
        common.range,
        shape,
        err,
        gate,
    );
    match made {
        Ok(text) => (Ok(text), heard),
        Err(Memory) => (Err(Failure::Memory), heard),
    }
}

/// The text of a resolution, read off a table that is made by as many workers as are asked for. Nothing is kept.
fn tabled_by_workers<W: Threads + Wait + Clock + Sync, E: Sink + Send, G: Gate + Sync>(
    wait: &W,
    alloc: Global,
    resolved: Module,
    form: Form,
    common: Common,
    err: &mut E,
    gate: &G,
) -> (Result<Vec<u8>, Failure>, Result<(), Failed>)
    requires { IsWithin common }
    ensures told { HasAnswer result.0 → IsInForm form common.range resolved.plain (answer_of result.0) }
    ensures why { IfErr result.0 (λ e. (e ≡ WantOfMemory) ⊎ IsRefusedIn form common.range resolved.plain (Err e)) }
    ensures course { HasCourse common.workers common.range (shape_of form) resolved.plain (HasText result.0) }
    ensures heard { HasHeard (device_of E.written E.faults) (live_where common.live common.range) result.0 result.1
        err.old err.new }
{
    match Table::new(alloc, resolved) {
        Ok(table) => {
            let (text, _keeper, heard) = told_by_workers(
                wait, alloc, common, table, form, NoKeep, err, gate,
            );
            (text, heard)
        }
        Err(Memory) => (Err(Failure::Memory), Ok(())),
    }
}

/// The text of a resolution over the save file of its module, made on the caller's thread.
fn saved_alone<D: Disk>(
    alloc: Global,
    resolution: Resolution,
    disk: D,
) -> (Result<Vec<u8>, Failure>, D)
    requires { IsWithin resolution.common }
    ensures { HasUsed (store_of D.now D.moment D.images D.images_at D.since D.faults) (keeping resolution.common.range)
        resolution.resolved.plain (ToResolve resolution) result.0 disk result.1 }
{
    let Resolution {
        resolved,
        form,
        common,
    } = resolution;
    match resume(alloc, resolved, disk) {
        Ok((table, file)) => {
            let keeper = RunFile::over(&table, file);
            let (text, keeper) = told_alone(alloc, table, common.range, form, keeper);
            (text, keeper.into_disk())
        }
        Err((fault, disk)) => (Err(Failure::from(fault)), disk),
    }
}

/// The text of a resolution over the save file of its module, made by as many workers as it says.
fn saved_by_workers<
    W: Threads + Wait + Clock + Sync,
    E: Sink + Send,
    D: Disk + Send,
    G: Gate + Sync,
>(
    wait: &W,
    alloc: Global,
    resolution: Resolution,
    err: &mut E,
    disk: D,
    gate: &G,
) -> (Result<Vec<u8>, Failure>, D, Result<(), Failed>)
    requires { IsWithin resolution.common }
    ensures kept { HasUsed (store_of D.now D.moment D.images D.images_at D.since D.faults)
        (keeping resolution.common.range) resolution.resolved.plain (ToResolve resolution) result.0 disk result.1 }
    ensures course { HasKeptCourse (store_of D.now D.moment D.images D.images_at D.since D.faults)
        resolution.common.workers resolution.common.range (shape_of resolution.form) resolution.resolved.plain
        (HasText result.0) (result.0 ≢ Err Saving) disk result.1 }
    ensures heard { HasHeard (device_of E.written E.faults) (live_where resolution.common.live resolution.common.range)
        result.0 result.2 err.old err.new }
{
    let Resolution {
        resolved,
        form,
        common,
    } = resolution;
    match resume(alloc, resolved, disk) {
        Ok((table, file)) => {
            let keeper = RunFile::over(&table, file);
            let (text, keeper, heard) = told_by_workers(
                wait, alloc, common, table, form, keeper, err, gate,
            );
            (text, keeper.into_disk(), heard)
        }
        Err((fault, disk)) => (Err(Failure::from(fault)), disk, Ok(())),
    }
}

/// Continues a table through the range on the caller's thread and formats it; the keeper gets the new squares.
fn told_alone<K: Keep>(
    alloc: Global,
    table: Table,
    range: Range,
    form: Form,
    keeper: K,
) -> (Result<Vec<u8>, Failure>, K)
    requires rows { range.s ≤ MAX_S }
    requires degrees { range.t ≤ MAX_T }
    requires live { (K.telling keeper).live }
    requires of_table { IsKeeperOf (K.telling keeper) table }
    ensures continued { HasContinued range form table result.0 (K.telling keeper) (K.telling result.1) }
    ensures untouched { IsUntouched K.telling keeper result.1 }
{
    canonical_table_is_minimal_resolution();
    modules_are_graded_modules();
    let (resolved, keeper) = resolve_alone(alloc, table, range, keeper);
    match resolved {
        Ok(table) => {
            let text = told(alloc, form, &table, range);
            leave(table);
            (text, keeper)
        }
        Err(KeepFault::Memory) => (Err(Failure::Memory), keeper),
        Err(KeepFault::Failed) => (Err(Failure::Saving), keeper),
    }
}

/// Continues a table through the range by as many workers as are asked for and formats it; the keeper gets the new squares.
#[tactic(auto, using(crate::proofs::Reporting::heard_of))]
fn told_by_workers<
    W: Threads + Wait + Clock + Sync,
    K: Keep + Send,
    E: Sink + Send,
    G: Gate + Sync,
>(
    wait: &W,
    alloc: Global,
    common: Common,
    table: Table,
    form: Form,
    keeper: K,
    err: &mut E,
    gate: &G,
) -> (Result<Vec<u8>, Failure>, K, Result<(), Failed>)
    requires within { IsWithin common }
    requires live { (K.telling keeper).live }
    requires of_table { IsKeeperOf (K.telling keeper) table }
    ensures continued { HasContinued common.range form table result.0 (K.telling keeper) (K.telling result.1) }
    ensures untouched { IsUntouched K.telling keeper result.1 }
    ensures worked { HasResolvedBy K.telling common.workers common.range table (HasText result.0) keeper result.1 }
    ensures heard { HasHeard (device_of E.written E.faults) (live_where common.live common.range) result.0 result.2
        err.old err.new }
{
    canonical_table_is_minimal_resolution();
    modules_are_graded_modules();
    let (resolved, keeper, heard) = resolved_by_workers(
        wait, alloc, common, table, keeper, err, gate,
    );
    match resolved {
        Ok(table) => {
            let text = told(alloc, form, &table, common.range);
            leave(table);
            (text, keeper, heard)
        }
        Err(Cause::Memory) => (Err(Failure::Memory), keeper, heard),
        Err(Cause::Failed) => (Err(Failure::Saving), keeper, heard),
    }
}

/// Continues a table through the range by as many workers as are asked for; the keeper gets the new squares, and `err` the
/// reports if those are asked for.
fn resolved_by_workers<
    W: Threads + Wait + Clock + Sync,
    K: Keep + Send,
    E: Sink + Send,
    G: Gate + Sync,
>(
    wait: &W,
    alloc: Global,
    common: Common,
    table: Table,
    keeper: K,
    err: &mut E,
    gate: &G,
) -> (Result<Table, Cause>, K, Result<(), Failed>)
    requires within { IsWithin common }
    requires live { (K.telling keeper).live }
    requires of_table { IsKeeperOf (K.telling keeper) table }
    ensures resolved { HasResolved Cause.Failed Cause.Memory AreApart common.range table result.0 (K.telling keeper)
        (K.telling result.1) }
    ensures untouched { IsUntouched K.telling keeper result.1 }
    ensures worked { HasResolvedBy K.telling common.workers common.range table (OnErr result.0 ⊥) keeper result.1 }
    ensures heard { HasHeard (device_of E.written E.faults) (live_where common.live common.range) result.0 result.2
        err.old err.new }
{
    let Common {
        range,
        workers,
        live,
        ..
    } = common;
    let workers = workers as usize;
    if live {
        resolve_live(wait, alloc, workers, table, range, keeper, gate, err)
    } else {
        let (resolved, keeper) = resolve_with(wait, alloc, workers, table, range, keeper, gate);
        (resolved, keeper, Ok(()))
    }
}

/// Leaks the table on purpose: the process is about to end, and the system takes the memory back at once, while letting go of some
/// hundred thousand rows one by one took a twentieth of a run.
pub(crate) fn leave(table: Table) {
    forget(table);
}

/// Formats a table that covers the range.
fn told(alloc: Global, form: Form, table: &Table, range: Range) -> Result<Vec<u8>, Failure>
    requires through { IsThrough range table.now.rows }
    requires rows { range.s ≤ MAX_S }
    requires degrees { range.t ≤ MAX_T }
    ensures told { HasAnswer result →
        IsResolved range table.now.resolved.plain (cut range (plain_rows table.now.rows)) →
        IsInForm form range table.now.resolved.plain (answer_of result) }
    ensures why { IfErr result (λ e. (e ≡ WantOfMemory) ⊎ IsRefusedIn form range table.now.resolved.plain (Err e)) }
{
    canonical_table_exists();
    canonical_table_is_minimal_resolution();
    modules_are_graded_modules();
    accepted_is_module();
    match form {
        Form::Squares(sheet, shape) => Ok(sheet_text(alloc, sheet, table, range, shape)?),
        Form::Products(layout, by, shape) => {
            let source = Source {
                held: Held::Squares(table),
            };
            Ok(products_in(alloc, &source, layout, range, shape, by.as_slice())?)
        }
        Form::Sought(sought) => {
            let source = Source {
                held: Held::Squares(table),
            };
            Ok(sought_text(alloc, &source, range, sought)?)
        }
    }
}
