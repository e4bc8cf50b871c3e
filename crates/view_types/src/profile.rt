ghost use Rattle.std.specs.Prelude.{◌≡◌, ◌↔◌, IfOk, IsTrue};

use k8s_meta::meta::Meta;
use mesh_base::boxed::Boxed;
use mesh_base::copied::Copied;
use mesh_base::list::List;
use mesh_base::memory::Memory;
use mesh_base::same::Same;
use mesh_base::text::Text;
use std::alloc::Global;

/// The requests that a route of a profile applies to.
#[derive(Drop)]
pub enum ReqMatch {
    Method(Text),
    /// A regular expression.
    Path(Text),
    All(List<ReqMatch>),
    Any(List<ReqMatch>),
    Not(Boxed<ReqMatch>),
}

/// The responses that a response class of a profile applies to.
#[derive(Drop)]
pub enum RespMatch {
    /// The lowest and the highest status code.
    Status(u16, u16),
    All(List<RespMatch>),
    Any(List<RespMatch>),
    Not(Boxed<RespMatch>),
}

/// A response class.
#[derive(Drop)]
pub struct RespClass {
    pub condition: RespMatch,
    pub failure: bool,
}

/// A route of a profile.
pub struct ProfileRoute {
    pub name: Text,
    pub condition: ReqMatch,
    pub classes: List<RespClass>,
    pub retryable: bool,
    /// In nanoseconds, below 2^63.
    pub timeout: Option<u64>,
}

/// Written by hand, as that of `Text`.
impl Drop for ProfileRoute {
    fn drop(self) {
        let ProfileRoute {
            name: _name,
            condition: _condition,
            classes: _classes,
            retryable: _,
            timeout: _timeout,
        } = self;
    }
}

/// A destination of traffic that replaces the Service.
pub struct Override {
    pub authority: Text,
    /// In thousandths.
    pub weight: u32,
}

/// Written by hand, as that of `Text`.
impl Drop for Override {
    fn drop(self) {
        let Override {
            authority: _authority,
            weight: _,
        } = self;
    }
}

/// A ServiceProfile, linkerd.io/v1alpha2.
#[derive(Drop)]
pub struct Profile {
    pub meta: Meta,
    pub routes: List<ProfileRoute>,
    pub overrides: List<Override>,
}

impl Copied for ReqMatch {
    #[cycle(copy_req)]
    fn copy(&self, alloc: Global) -> Result<ReqMatch, Memory> {
        match self {
            ReqMatch::Method(text) => Ok(ReqMatch::Method(text.copy()?)),
            ReqMatch::Path(text) => Ok(ReqMatch::Path(text.copy()?)),
            ReqMatch::All(parts) => Ok(ReqMatch::All(copy_req_parts(alloc, parts.as_slice())?)),
            ReqMatch::Any(parts) => Ok(ReqMatch::Any(copy_req_parts(alloc, parts.as_slice())?)),
            ReqMatch::Not(part) => {
                let copy = part.get().copy(alloc)?;
                Ok(ReqMatch::Not(Boxed::new(alloc, copy)?))
            }
        }
    }
}

#[cycle(copy_req)]
fn copy_req_parts(alloc: Global, parts: &[ReqMatch]) -> Result<List<ReqMatch>, Memory>
    ensures { IfOk result (λ copies. copies ≡ parts.now) }
{
    let mut copies = List::new(alloc);
    for part in parts {
        copies.add(part.copy(alloc)?)?;
    }
    Ok(copies)
}

impl Same for ReqMatch {
    #[cycle(same_req)]
    fn is_same(&self, other: &ReqMatch) -> bool {
        match (self, other) {
            (ReqMatch::Method(mine), ReqMatch::Method(others)) => mine.is_same(others),
            (ReqMatch::Path(mine), ReqMatch::Path(others)) => mine.is_same(others),
            (ReqMatch::All(mine), ReqMatch::All(others)) => same_req_parts(
                mine.as_slice(),
                others.as_slice(),
            ),
            (ReqMatch::Any(mine), ReqMatch::Any(others)) => same_req_parts(
                mine.as_slice(),
                others.as_slice(),
            ),
            (ReqMatch::Not(mine), ReqMatch::Not(others)) => mine.get().is_same(others.get()),
            _ => false,
        }
    }
}

#[cycle(same_req)]
fn same_req_parts(mine: &[ReqMatch], others: &[ReqMatch]) -> bool
    ensures { IsTrue result ↔ (mine.now ≡ others.now) }
{
    if mine.len() != others.len() {
        return false;
    }
    for (i, item) in mine.iter().enumerate() {
        if !item.is_same(&others[i]) {
            return false;
        }
    }
    true
}

impl Copied for RespMatch {
    #[cycle(copy_resp)]
    fn copy(&self, alloc: Global) -> Result<RespMatch, Memory> {
        match self {
            RespMatch::Status(low, high) => Ok(RespMatch::Status(*low, *high)),
            RespMatch::All(parts) => Ok(RespMatch::All(copy_resp_parts(alloc, parts.as_slice())?)),
            RespMatch::Any(parts) => Ok(RespMatch::Any(copy_resp_parts(alloc, parts.as_slice())?)),
            RespMatch::Not(part) => {
                let copy = part.get().copy(alloc)?;
                Ok(RespMatch::Not(Boxed::new(alloc, copy)?))
            }
        }
    }
}

#[cycle(copy_resp)]
fn copy_resp_parts(alloc: Global, parts: &[RespMatch]) -> Result<List<RespMatch>, Memory>
    ensures { IfOk result (λ copies. copies ≡ parts.now) }
{
    let mut copies = List::new(alloc);
    for part in parts {
        copies.add(part.copy(alloc)?)?;
    }
    Ok(copies)
}

impl Same for RespMatch {
    #[cycle(same_resp)]
    fn is_same(&self, other: &RespMatch) -> bool {
        match (self, other) {
            (RespMatch::Status(low, high), RespMatch::Status(other_low, other_high)) => low.is_same(
                other_low,
            ) && high.is_same(other_high),
            (RespMatch::All(mine), RespMatch::All(others)) => same_resp_parts(
                mine.as_slice(),
                others.as_slice(),
            ),
            (RespMatch::Any(mine), RespMatch::Any(others)) => same_resp_parts(
                mine.as_slice(),
                others.as_slice(),
            ),
            (RespMatch::Not(mine), RespMatch::Not(others)) => mine.get().is_same(others.get()),
            _ => false,
        }
    }
}

#[cycle(same_resp)]
fn same_resp_parts(mine: &[RespMatch], others: &[RespMatch]) -> bool
    ensures { IsTrue result ↔ (mine.now ≡ others.now) }
{
    if mine.len() != others.len() {
        return false;
    }
    for (i, item) in mine.iter().enumerate() {
        if !item.is_same(&others[i]) {
            return false;
        }
    }
    true
}

impl Copied for RespClass {
    fn copy(&self, alloc: Global) -> Result<RespClass, Memory> {
        Ok(RespClass {
            condition: self.condition.copy(alloc)?,
            failure: self.failure,
        })
    }
}

impl Same for RespClass {
    fn is_same(&self, other: &RespClass) -> bool {
        self.condition.is_same(&other.condition) && self.failure.is_same(&other.failure)
    }
}

impl Copied for ProfileRoute {
    fn copy(&self, alloc: Global) -> Result<ProfileRoute, Memory> {
        Ok(ProfileRoute {
            name: self.name.copy()?,
            condition: self.condition.copy(alloc)?,
            classes: self.classes.copy(alloc)?,
            retryable: self.retryable,
            timeout: self.timeout,
        })
    }
}

impl Same for ProfileRoute {
    fn is_same(&self, other: &ProfileRoute) -> bool {
        self.name.is_same(&other.name)
            && self.condition.is_same(&other.condition)
            && self.classes.is_same(&other.classes)
            && self.retryable.is_same(&other.retryable)
            && self.timeout.is_same(&other.timeout)
    }
}

impl Copied for Override {
    fn copy(&self, _alloc: Global) -> Result<Override, Memory> {
        Ok(Override {
            authority: self.authority.copy()?,
            weight: self.weight,
        })
    }
}

impl Same for Override {
    fn is_same(&self, other: &Override) -> bool {
        self.authority.is_same(&other.authority) && self.weight.is_same(&other.weight)
    }
}

impl Copied for Profile {
    fn copy(&self, alloc: Global) -> Result<Profile, Memory> {
        Ok(Profile {
            meta: self.meta.copy(alloc)?,
            routes: self.routes.copy(alloc)?,
            overrides: self.overrides.copy(alloc)?,
        })
    }
}
