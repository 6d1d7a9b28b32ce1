//! The servers of a setup.

ghost use Rattle.std.specs.Prelude.{◌≡◌, ◌≤◌, IfOk};
ghost use Rattle.lu_load.specs.Setups.{KeepsSetup};
ghost use Rattle.lu_cli.specs.Told.{IsServerOf, AreServersOf};

use cg_program::code::Code;
use lu_base::Memory;
use lu_load::Setup;
use plan_file::Server;
use std::alloc::Global;
use sys_run::ServerCode;

// A server of the plan with the code that it begins with.
fn server_of<'a>(server: &'a Server, code: &'a Code) -> ServerCode<'a>
    requires { server.now.number ≤ 16 }
    ensures { IsServerOf server.now code.now result }
{
    ServerCode {
        name: &server.name,
        number: server.number as i32,
        version: server.version,
        code,
    }
}

/// The servers of a plan in order, each with the code that it begins with.
pub fn servers_of<'a>(alloc: Global, setup: &'a Setup) -> Result<Vec<ServerCode<'a>>, Memory>
    requires { KeepsSetup setup.now }
    ensures { IfOk result (λ servers. AreServersOf setup.now servers.items) }
{
    let mut servers = Vec::new(alloc);
    let plan = setup.plan.server.as_slice();
    let codes = setup.codes.as_slice();
    for n in 0..plan.len() {
        servers.push(server_of(&plan[n], &codes[n]))?;
    }
    Ok(servers)
}
