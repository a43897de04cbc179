ghost use Rattle.std.specs.Prelude.{◌≡◌};
ghost use Rattle.st_lease_client.specs.Standings.{server_of};

use st_base::{Config, PageNo, ServerId, Stamp};
use st_flush::{Flusher, IoKind};
use st_lease_client::{Lease, LossPermit, Receipt, Standing};
use std::test::Fail;

/// Settings under which the flush phase of a lease begins after 85 ticks and ends after 100.
const CONFIG: Config = Config {
    lease: 100,
    renew: 50,
    quiesce: 70,
    flush: 85,
    demand: 10,
    retry: 5,
    num: 3,
    den: 2,
    grain: 2,
};

fn discard(lease: &mut Lease, permit: LossPermit) -> Receipt
    requires { permit.server ≡ lease.old.server }
    ensures server { lease.new.server ≡ lease.old.server }
    ensures receipt { result.server ≡ lease.old.server }
{
    let (pages, locks, commands) = permit.split();
    lease.close_lost(pages.done(), locks.done(), commands.done())
}

/// Spends a standing.
fn spend(lease: &mut Lease, standing: Standing)
    requires { server_of standing ≡ lease.old.server }
    ensures { lease.new.server ≡ lease.old.server }
{
    let receipt = match standing {
        Standing::Idle(receipt) => receipt,
        Standing::Serve(permit) => permit.spend(),
        Standing::Hold(permit) => permit.spend(),
        Standing::Drain(permit) => permit.spend(),
        Standing::Lost(permit) => discard(lease, permit),
    };
    lease.close(receipt);
}

/// A lease begins.
fn begin(lease: &mut Lease)
    requires { lease.old.config.lease ≡ 100 }
    ensures { lease.new.server ≡ lease.old.server }
{
    match lease.settle(Stamp(0)) {
        Standing::Idle(receipt) => {
            let standing = lease.begin(receipt, Stamp(0), Stamp(0));
            spend(lease, standing);
        }
        standing => spend(lease, standing),
    }
}

#[test]
fn all_writes_begin_at_once(rt: HostRuntime) -> Result<(), Fail> {
    let config = CONFIG;
    assert!(rt; config.check().is_ok());
    let mut lease = Lease::none(ServerId(1), &config);
    begin(&mut lease);
    let mut flusher = Flusher::new(rt.alloc(), ServerId(1))?;
    let writes = [(2, PageNo(0), 1), (2, PageNo(1), 4)];
    assert!(rt; flusher.may_begin(&writes, 7));
    match lease.settle(Stamp(90)) {
        Standing::Drain(permit) => {
            let (receipt, begun) = flusher.submit_all(permit, &writes, 7);
            lease.close(receipt);
            begun?;
        }
        standing => spend(&mut lease, standing),
    }
    assert_eq!(rt; flusher.of(7), Some((2, PageNo(0), IoKind::Write(1))));
    assert_eq!(rt; flusher.on(2, PageNo(1)), Some((8, IoKind::Write(4))));
    Ok(())
}
