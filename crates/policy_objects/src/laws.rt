ghost use Rattle.k8s_meta.specs.Given.{GivesOnly};
ghost use Rattle.policy_objects.specs.Authentications.{mesh_authn_at, net_authn_at};
ghost use Rattle.policy_objects.specs.AuthorizationPolicies.{authz_policy_at};
ghost use Rattle.policy_objects.specs.ServerAuthorizations.{server_authz_at};
ghost use Rattle.policy_objects.specs.Servers.{server_at};
ghost use Rattle.view_types.specs.Lawful.{IsLawfulMeshAuthn, IsLawfulNetAuthn, IsLawfulPolicy, IsLawfulServer, IsLawfulServerAuthz};

/// Every object that the tables read is lawful.
pub fn objects_are_lawful()
    ensures servers { GivesOnly IsLawfulServer server_at }
    ensures server_authzs { GivesOnly IsLawfulServerAuthz server_authz_at }
    ensures policies { GivesOnly IsLawfulPolicy authz_policy_at }
    ensures mesh_authns { GivesOnly IsLawfulMeshAuthn mesh_authn_at }
    ensures net_authns { GivesOnly IsLawfulNetAuthn net_authn_at }
{}
