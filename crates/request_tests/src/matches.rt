use mesh_base::key::Kind;
use mesh_base::list::List;
use mesh_base::memory::Memory;
use mesh_base::text::Text;
use mesh_outside::SurePatterns;
use route_match::best::best_match;
use row_file::TrialFault;
use std::alloc::Global;
use view_types::request::HttpRequest;
use view_types::route::{HttpMatch, PathMatch};
use view_types::server_view::{RouteRow, RuleRow};

// A match of all paths below a prefix.
fn prefix(alloc: Global, path: &str) -> Result<HttpMatch, Memory> {
    Ok(HttpMatch {
        path: PathMatch::Prefix(Text::from_str(alloc, path)?),
        headers: List::new(alloc),
        query: List::new(alloc),
        method: None,
    })
}

// A rule with matches of these prefixes, which stand with blanks between them.
fn rule(alloc: Global, paths: &str) -> Result<RuleRow, Memory> {
    let mut matches = List::new(alloc);
    for path in paths.split(' ') {
        matches.add(prefix(alloc, path)?)?;
    }
    Ok(RuleRow {
        matches,
        filters: List::new(alloc),
        backends: List::new(alloc),
        request_timeout: None,
        backend_timeout: None,
    })
}

// A route whose rules stand with `|` between them.
fn route(alloc: Global, rules: &str) -> Result<RouteRow, Memory> {
    let mut rows = List::new(alloc);
    for paths in rules.split('|') {
        rows.add(rule(alloc, paths)?)?;
    }
    Ok(RouteRow {
        kind: Kind::GatewayRoute,
        name: Text::from_str(alloc, "r")?,
        created: None,
        hosts: List::new(alloc),
        rules: rows,
        authz: List::new(alloc),
    })
}

fn request(alloc: Global, path: &str) -> Result<HttpRequest, Memory> {
    Ok(HttpRequest {
        method: Text::from_str(alloc, "GET")?,
        path: Text::from_str(alloc, path)?,
        host: Text::from_str(alloc, "")?,
        query: Text::from_str(alloc, "")?,
        headers: List::new(alloc),
    })
}

/// The places of the best match of a path.
fn places(alloc: Global, routes: &str, path: &str, out: &mut String) -> Result<(), TrialFault> {
    let mut rows = List::new(alloc);
    for rules in routes.split(',') {
        rows.add(route(alloc, rules)?)?;
    }
    let asked = request(alloc, path)?;
    match best_match(alloc, &mut SurePatterns, &asked, rows.as_slice()) {
        Ok(Some(best)) => {
            let (route, rule, item) = (best.route, best.rule, best.item);
            write!(out, "{route} {rule} {item}\n")?;
        }
        Ok(None) => out.push_str("none\n")?,
        Err(_) => return Err(TrialFault::new("no answer")),
    }
    Ok(())
}

/// Writes for each line the places of the best match.
pub fn best(alloc: Global, input: &str, out: &mut String) -> Result<(), TrialFault> {
    for line in input.lines() {
        let Some((routes, path)) = line.rsplit_once(' ') else {
            return Err(TrialFault::new("a line has no path"));
        };
        places(alloc, routes, path, out)?;
    }
    Ok(())
}
