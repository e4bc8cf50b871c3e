use mesh_base::text::Text;
use net_cidr::ip::read_ip;
use request_writing::request::{ClientRequest, GetDestination, PortSpec, TrafficSpec};
use request_writing::writing::write_request;
use row_file::TrialFault;
use std::alloc::Global;

fn text_of(alloc: Global, text: &str) -> Result<Text, TrialFault> {
    Ok(Text::from_str(alloc, text)?)
}

/// The two fields of a row.
fn fields(given: &str) -> Result<(&str, &str), TrialFault> {
    match given.split_once('|') {
        Some(pair) => Ok(pair),
        None => Err(TrialFault::new("a row has no second field")),
    }
}

fn port_of(digits: &str) -> Result<u16, TrialFault> {
    match digits.parse::<u16>() {
        Ok(port) => Ok(port),
        Err(_) => Err(TrialFault::new("a row has a port that is none")),
    }
}

fn destination(alloc: Global, given: &str) -> Result<GetDestination, TrialFault> {
    let (path, token) = fields(given)?;
    Ok(GetDestination {
        path: text_of(alloc, path)?,
        token: text_of(alloc, token)?,
    })
}

fn port_spec(alloc: Global, given: &str) -> Result<PortSpec, TrialFault> {
    let (workload, port) = fields(given)?;
    Ok(PortSpec {
        workload: text_of(alloc, workload)?,
        port: port_of(port)?,
    })
}

fn traffic_spec(alloc: Global, given: &str) -> Result<TrafficSpec, TrialFault> {
    let Some((address, port)) = given.split_once('|') else {
        return Ok(TrafficSpec::Authority(text_of(alloc, given)?));
    };
    let Some(ip) = read_ip(address.as_bytes()) else {
        return Err(TrialFault::new("a row has an address that is none"));
    };
    Ok(TrafficSpec::Addr {
        ip,
        port: port_of(port)?,
    })
}

fn request_of(alloc: Global, method: &str, given: &str) -> Result<ClientRequest, TrialFault> {
    match method {
        "Get" => Ok(ClientRequest::Get(destination(alloc, given)?)),
        "GetProfile" => Ok(ClientRequest::GetProfile(destination(alloc, given)?)),
        "WatchPort" => Ok(ClientRequest::WatchPort(port_spec(alloc, given)?)),
        "Watch" => Ok(ClientRequest::Watch(traffic_spec(alloc, given)?)),
        "WatchPort2" => Ok(ClientRequest::WatchPort2(port_spec(alloc, given)?)),
        _ => Err(TrialFault::new("no method has this name")),
    }
}

/// Writes a request.
pub fn request(
    alloc: Global,
    method: &str,
    input: &str,
    out: &mut String,
) -> Result<(), TrialFault> {
    let given = input.strip_suffix('\n').unwrap_or(input);
    let bytes = write_request(alloc, &request_of(alloc, method, given)?)?;
    if bytes.is_empty() {
        out.push_str("empty\n")?;
        return Ok(());
    }
    let hex = hex::encode(alloc, bytes.as_slice())?;
    write!(out, "{hex}\n")?;
    Ok(())
}
