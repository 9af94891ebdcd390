// Laws of the definitions, which no code calls.
ghost use Rattle.std.specs.Prelude.{◌≡◌, ◌≤◌, ◌↔◌, ℕ, List, Ok, IfSome};
ghost use Rattle.glacier_http.specs.View.{HeadText};
ghost use Rattle.glacier_requests.specs.JobBodies.{job_body_of, HasRisingRange};
ghost use Rattle.glacier_requests.specs.Parts.{output_range_of};
ghost use Rattle.glacier_requests.specs.declared.jobs.JobBody.{JobBody as Body};
ghost use Rattle.glacier_requests.specs.Paths.{row, AsksFor, LooksFor, IsBadName, IsGoodName, IsBadId};
ghost use Rattle.glacier_requests.specs.Routes.{route_of};
ghost use Rattle.glacier_requests.specs.declared.routes.Route.{Route as HeadRoute};
ghost use Rattle.glacier_requests.specs.declared.routes.RouteStep.TheVariants as found;

/// A head has exactly the route whose method and path it has, for each of the twenty operations. It
/// is BadName exactly where it has the method and the path of one with a bad name, whatever the id;
/// BadId where the name is good and the id isn't; and NoRoute where it has those of none.
pub fn a_route_is_what_is_asked_for()
    ensures route { (head : HeadText) (route : HeadRoute) →
        (route_of head ≡ found.Route route) ↔ AsksFor head route }
    ensures bad_name { (head : HeadText) → (route_of head ≡ found.BadName)
        ↔ ((route : HeadRoute) × (text : List ℕ) × LooksFor head route text
        × IsBadName (row route.op).1) }
    ensures bad_id { (head : HeadText) → (route_of head ≡ found.BadId)
        ↔ ((route : HeadRoute) × (text : List ℕ) × LooksFor head route text
        × IsGoodName (row route.op).1 × IsBadId text (row route.op).1) }
    ensures no_route { (head : HeadText) → (route_of head ≡ found.NoRoute)
        ↔ ((route : HeadRoute) (text : List ℕ) → ¬ (LooksFor head route text)) }
{}

/// The range of a job that a body asks for, and that of an output that a head asks for, begin where
/// they end or before.
pub fn ranges_are_in_order()
    ensures job { (text : List ℕ) (body : Body) → job_body_of text ≡ Ok body
        → HasRisingRange body.kind }
    ensures output { (head : HeadText) → IfSome (output_range_of head) (λ range. range.0 ≤ range.1) }
{}
