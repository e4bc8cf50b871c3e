ghost use Rattle.std.specs.Prelude.{◌≡◌, ◌<◌, ◌^◌, ℕ, IsTrue, List, Ok, length};
ghost use Rattle.k8s_meta.specs.Scalars.{is_name};
ghost use Rattle.view_types.specs.declared.config.Config.{Config};
ghost use Rattle.view_types.specs.declared.query.Query.{Query};
ghost use Rattle.proxy_proto.specs.RequestReading.{request_of};
ghost use Rattle.request_writing.specs.declared.request.ClientRequest.{ClientRequest};
ghost use Rattle.request_writing.specs.Meanings.{meaning};
ghost use Rattle.request_writing.specs.Queries.{IsRequestable, request_for};
ghost use Rattle.request_writing.specs.Requests.{canonical_request, method_of_request};
ghost use Rattle.request_writing.specs.Sendable.{IsSendableRequest};

/// States that the encoding of a sendable request is read, by the method that answers it, as the
/// meaning of the request.
pub fn requests_read_back()
    ensures { (config : Config) (request : ClientRequest) → IsSendableRequest request
        → request_of config (method_of_request request) (canonical_request request)
        ≡ meaning config request }
{}

/// States that each query whose names, address and port can be written has a request that is read
/// as the query. Its token may be any that gives the context of the client.
pub fn queries_read_back()
    ensures { (config : Config) (token : List ℕ) (query : Query)
        → IsTrue (is_name config.cluster_domain) → IsRequestable token query
        → let request = request_for config token query in
        length (canonical_request request) < 2 ^ 64
        → request_of config (method_of_request request) (canonical_request request) ≡ Ok query }
{}
