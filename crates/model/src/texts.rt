//! Replies as they are written.

ghost use Rattle.std.specs.Prelude.{codes, pos, negsuc, ◌≡◌, [], ◌∷◌, Some, None};
ghost use Rattle.model.specs.state.World.Edge.{Start};
ghost use Rattle.model.specs.state.Entry.Act.{Create, Delete, Subscription, Subscribe, Assignments, Seek, Fixed, Records};
ghost use Rattle.model.specs.state.Entry.Question.{Brokers, Topics, OneTopic, Parts, OnePart, EndOffsets};
ghost use Rattle.model.specs.state.Entry.Call.{Produce, Ask, Of};
ghost use Rattle.model.specs.state.Entry.Placed.{Stored, Failed};
ghost use Rattle.model.specs.state.Entry.Reply.{Done, Made, Names, Nodes, Offsets, Told, Edged, Listed, Answers, Unread, Refused, Broker, LinkFault};
ghost use Rattle.model.specs.examples.Readings.{reader, orders, other_orders, place_at, kafka_at, settings_of};
ghost use Rattle.model.specs.examples.ReadingReplies.{one_part, as_written};
ghost use Rattle.model.specs.texts.Texts.Response.{Empty, Body, Error};

/// Each reply of the model stands for the body that the Confluent REST Proxy API v2 gives.
pub fn replies_are_written_so()
    ensures stored { as_written (Produce (codes "orders") (record { key_id = None; value_id = None; records = [] })) (Answers (Stored 0 0 ∷ []))
        ≡ Body None (codes "{\"offsets\":[{\"partition\":0,\"offset\":0,\"error_code\":null,\"error\":null}],\"key_schema_id\":null,\"value_schema_id\":null}") }
    ensures failed { as_written (Produce (codes "orders") (record { key_id = None; value_id = Some 1; records = [] })) (Answers (Failed 0 (pos 10) ∷ Failed 1 (pos 6) ∷ []))
        ≡ Body None (codes "{\"offsets\":[{\"partition\":0,\"offset\":null,\"error_code\":1,\"error\":\"broker code 10\"},{\"partition\":1,\"offset\":null,\"error_code\":2,\"error\":\"broker code 6\"}],\"key_schema_id\":null,\"value_schema_id\":1}") }
    ensures brokers { as_written (Ask Brokers) (Nodes (pos 1 ∷ []))
        ≡ Body None (codes "{\"brokers\":[1]}") }
    ensures topics { as_written (Ask Topics) (Names (codes "orders" ∷ []))
        ≡ Body None (codes "[\"orders\"]") }
    ensures part { as_written (Ask (OnePart orders)) (Told (one_part ∷ []))
        ≡ Body None (codes "{\"partition\":0,\"leader\":1,\"replicas\":[{\"broker\":1,\"leader\":true,\"in_sync\":true}]}") }
    ensures parts { as_written (Ask (Parts (codes "orders"))) (Told (one_part ∷ []))
        ≡ Body None (codes "[{\"partition\":0,\"leader\":1,\"replicas\":[{\"broker\":1,\"leader\":true,\"in_sync\":true}]}]") }
    ensures topic { as_written (Ask (OneTopic (codes "orders"))) (Told (one_part ∷ []))
        ≡ Body None (codes "{\"name\":\"orders\",\"configs\":{},\"partitions\":[{\"partition\":0,\"leader\":1,\"replicas\":[{\"broker\":1,\"leader\":true,\"in_sync\":true}]}]}") }
    ensures offsets { as_written (Ask (EndOffsets orders)) (Edged 0 3)
        ≡ Body None (codes "{\"beginning_offset\":0,\"end_offset\":3}") }
    ensures made { as_written (Of reader (Create (settings_of Start))) Made
        ≡ Body None (codes "{\"instance_id\":\"c1\",\"base_uri\":\"http://localhost:8082/consumers/g/instances/c1\"}") }
    ensures deleted { as_written (Of reader Delete) Done
        ≡ Empty }
    ensures subscribed { as_written (Of reader Subscription) (Names (codes "orders" ∷ []))
        ≡ Body None (codes "{\"topics\":[\"orders\"]}") }
    ensures listed { as_written (Of reader Assignments) (Listed (orders ∷ []))
        ≡ Body None (codes "{\"partitions\":[{\"topic\":\"orders\",\"partition\":0}]}") }
    ensures committed { as_written (Of reader (Fixed (orders ∷ other_orders ∷ []))) (Offsets (place_at 1 ∷ record { at = other_orders; position = 1 } ∷ []))
        ≡ Body None (codes "{\"offsets\":[{\"topic\":\"orders\",\"partition\":0,\"offset\":1,\"metadata\":\"\"},{\"topic\":\"orders\",\"partition\":1,\"offset\":1,\"metadata\":\"\"}]}") }
    ensures unread { as_written (Of reader (Records [] None None)) (Unread (record { at = orders; row = kafka_at 0 }) 2)
        ≡ Error 50002 (codes "{\"error_code\":50002,\"message\":\"Record does not read: topic orders, partition 0, offset 0, reason 2.\"}") }
    ensures retriable { as_written (Ask Topics) (Broker (pos 6))
        ≡ Error 50003 (codes "{\"error_code\":50003,\"message\":\"Kafka retriable error: broker code 6.\"}") }
    ensures another_code { as_written (Ask Topics) (Broker (negsuc 0))
        ≡ Error 50002 (codes "{\"error_code\":50002,\"message\":\"Kafka error: broker code -1.\"}") }
    ensures link { as_written (Ask Topics) LinkFault
        ≡ Error 50003 (codes "{\"error_code\":50003,\"message\":\"Kafka retriable error: link.\"}") }
    ensures no_topic { as_written (Ask Topics) (Refused 40401)
        ≡ Error 40401 (codes "{\"error_code\":40401,\"message\":\"Topic not found.\"}") }
    ensures no_partition { as_written (Ask Topics) (Refused 40402)
        ≡ Error 40402 (codes "{\"error_code\":40402,\"message\":\"Partition not found.\"}") }
    ensures no_instance { as_written (Of reader Delete) (Refused 40403)
        ≡ Error 40403 (codes "{\"error_code\":40403,\"message\":\"Consumer instance not found.\"}") }
    ensures format { as_written (Of reader (Records [] None None)) (Refused 40601)
        ≡ Error 40601 (codes "{\"error_code\":40601,\"message\":\"Consumer format does not match the Accept header.\"}") }
    ensures exists { as_written (Of reader (Create (settings_of Start))) (Refused 40902)
        ≡ Error 40902 (codes "{\"error_code\":40902,\"message\":\"Consumer instance with the specified name already exists.\"}") }
    ensures exclusive { as_written (Of reader (Subscribe [])) (Refused 40903)
        ≡ Error 40903 (codes "{\"error_code\":40903,\"message\":\"Subscription to topics, partitions and pattern are mutually exclusive.\"}") }
    ensures unassigned { as_written (Of reader (Seek [])) (Refused 40990)
        ≡ Error 40990 (codes "{\"error_code\":40990,\"message\":\"Partition is not assigned to this instance.\"}") }
{}
