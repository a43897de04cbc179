// What is demanded of a client's locks: a list, of which a file is in at most once.
ghost use Rattle.std.specs.Prelude.{◌≡◌, ◌≤◌, ◌<◌, IfOk, find, map, vec_capacity, vec_len};
ghost use Rattle.std.specs.List.{list_any};
ghost use Rattle.st_rules.specs.Client.{is_any};
ghost use Rattle.st_rules.specs.ClientLocks as locks;
ghost use Rattle.st_rules.specs.Keys.{rising};

use st_rules::DemandedFile;
use st_tables::put_key;
use std::alloc::{AllocError, Global};

/// The demand on the file, if there is one.
pub fn demand_of(demands: &[DemandedFile], ino: u32) -> Option<DemandedFile>
    ensures { result ≡ find (locks.is_demand_on ino) demands.now }
{
    demands.iter().copied().find(|demand| demand.ino == ino)
}

/// Whether the file is demanded.
pub fn is_demanded(demands: &[DemandedFile], ino: u32) -> bool
    ensures { result ≡ list_any (locks.is_demand_on ino) demands.now }
{
    demands.iter().any(|demand| demand.ino == ino)
}

/// Whether there is a demand.
#[tactic(auto, using(crate::proofs::Emptiness::any_is))]
pub fn has_demands(demands: &[DemandedFile]) -> bool
    ensures { result ≡ is_any demands.now }
{
    demands.len() > 0
}

/// Takes out the demand on the file.
pub fn drop_demand(demands: &mut Vec<DemandedFile>, ino: u32)
    ensures left { demands.new.items ≡ locks.without_demand ino demands.old.items }
    ensures bound { vec_len demands.new ≤ vec_len demands.old }
    ensures room { vec_capacity demands.new ≡ vec_capacity demands.old }
{
    demands.retain(|demand| demand.ino != ino);
}

/// The demand goes last, in place of an earlier one on its file.
pub fn put_demand(demands: &mut Vec<DemandedFile>, demand: DemandedFile)
    requires { vec_len demands.old < vec_capacity demands.old }
    ensures { demands.new.items ≡ locks.with_demand demand demands.old.items }
{
    drop_demand(demands, demand.ino);
    demands.push_reserved(demand);
}

/// The demanded files, in rising order.
pub fn demanded_files(alloc: Global, demands: &[DemandedFile]) -> Result<Vec<u32>, AllocError>
    ensures { IfOk result (λ v. v.items ≡ rising (map locks.ino_of_demand demands.now)) }
{
    let mut found = Vec::new(alloc);
    for i in (0..demands.len()).rev() {
        put_key(&mut found, demands[i].ino)?;
    }
    Ok(found)
}
